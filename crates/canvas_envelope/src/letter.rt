//! Letters: envelopes in a queue of one process.
//!
//! The texts are written although the message is kept: the history of the queue and the report are
//! about them, and they are what another process would get.

ghost use Rattle.std.specs.Prelude.{◌≡◌, IfOk, IfSome};
ghost use Rattle.canvas_envelope.specs.EnvelopeFaults.{Says};
ghost use Rattle.canvas_envelope.specs.Pieces.{joined};
ghost use Rattle.canvas_envelope.specs.Wire.{identifier};

use crate::kept::Kept;
use crate::pieces::LetterTexts;
use crate::{Envelope, Followed, Message, Pieces};
use canvas_task::Memory;
use std::alloc::Global;
use std::fmt;
use std::marker::Model;

/// The contents of a letter: an envelope, and perhaps the message that it encodes.
#[derive(Drop)]
struct Held {
    texts: LetterTexts,
    message: Kept,
}

impl Model for Held {
    ghost use Rattle.std.specs.Prelude.{IfSome};
    ghost use Rattle.canvas_envelope.specs.EnvelopeFaults.{Says};
    ghost use Rattle.canvas_envelope.specs.steps.Kept.{kept};
    ghost use Rattle.canvas_envelope.specs.Pieces.{envelope_seen};
    ghost use Rattle.canvas_envelope.specs.declared.envelope.Envelope.{Envelope};

    ghost Value = { Envelope };

    ghost view = { λ h. envelope_seen h.texts };

    ghost invariant = { λ h. IfSome (kept h.message)
        (λ m. Says (envelope_seen h.texts).properties (envelope_seen h.texts).headers
        (envelope_seen h.texts).body m) };
}

/// An envelope, whose body may share a piece with others. It may still hold the message that it was
/// sealed with, so that opening it need not read the texts that this process wrote. Contracts see
/// only the envelope: how it is held affects only time and memory. `Debug` shows nothing of it.
#[derive(Drop)]
pub struct Letter {
    // boxed, since letters are moved often
    held: Box<Held>,
}

impl Model for Letter {
    ghost use Rattle.canvas_envelope.specs.declared.envelope.Envelope.{Envelope};

    ghost Value = { Envelope };

    ghost view = { λ l. l.held.value };
}

impl Letter {
    /// Makes a letter of an envelope from elsewhere, which has to be read to be opened.
    pub fn new(alloc: Global, envelope: Envelope) -> Result<Letter, Memory>
        ensures { IfOk result (λ l. l ≡ envelope) }
    {
        let held = Held {
            texts: LetterTexts::Whole(envelope),
            message: Kept::Nothing,
        };
        Ok(Letter {
            held: Box::new(alloc, held)?,
        })
    }

    /// Makes a letter of an envelope and the message that it encodes. The message is kept if memory
    /// suffices.
    pub fn sealed(alloc: Global, pieces: Pieces, message: Message) -> Result<Letter, Memory>
        requires says { Says (joined pieces).properties (joined pieces).headers
            (joined pieces).body message }
        ensures { IfOk result (λ l. l ≡ joined pieces) }
    {
        let held = Held {
            texts: LetterTexts::Pieced(pieces),
            message: Kept::of(alloc, message),
        };
        Ok(Letter {
            held: Box::new(alloc, held)?,
        })
    }

    /// Like `sealed`, but the message is kept apart from the rest of its line.
    pub fn followed(alloc: Global, pieces: Pieces, message: Followed) -> Result<Letter, Memory>
        requires says { Says (joined pieces).properties (joined pieces).headers
            (joined pieces).body message }
        ensures { IfOk result (λ l. l ≡ joined pieces) }
    {
        let held = Held {
            texts: LetterTexts::Pieced(pieces),
            message: Kept::followed(alloc, message),
        };
        Ok(Letter {
            held: Box::new(alloc, held)?,
        })
    }

    /// Borrows the envelope of a letter that came from elsewhere.
    pub fn whole(&self) -> Option<&Envelope>
        ensures { IfSome result (λ e. e.now ≡ self.now) }
    {
        match &self.held.texts {
            LetterTexts::Whole(envelope) => Some(envelope),
            LetterTexts::Pieced(_) => None,
        }
    }

    /// Borrows the identifier that the envelope's properties name, in its quotes.
    pub fn identifier(&self) -> &[u8]
        ensures { result.now ≡ identifier self.now.properties }
    {
        self.held.texts.identifier()
    }

    /// Writes the envelope as three texts.
    pub fn envelope(&self, alloc: Global) -> Result<Envelope, Memory>
        ensures { IfOk result (λ e. e ≡ self.now) }
    {
        self.held.texts.envelope(alloc)
    }

    /// Takes out the message that the letter holds, if it holds one and memory suffices. Afterwards
    /// it holds none.
    pub fn take_message(&mut self, alloc: Global) -> Option<Box<Message>>
        ensures message { IfSome result
            (λ m. Says self.old.properties self.old.headers self.old.body m.value) }
        ensures letter { self.new ≡ self.old }
    {
        self.held.message.take(alloc)
    }

    /// Takes out the message that the letter holds, if it is kept apart from the rest of its line.
    /// Otherwise nothing changes.
    pub fn take_followed(&mut self) -> Option<Box<Followed>>
        ensures message { IfSome result
            (λ m. Says self.old.properties self.old.headers self.old.body m.value) }
        ensures letter { self.new ≡ self.old }
    {
        self.held.message.take_followed()
    }

    /// Clones the letter, as a broker that redelivers it does. The clone holds no message, and
    /// shares the same piece.
    pub fn copy(&self, alloc: Global) -> Result<Letter, Memory>
        ensures { IfOk result (λ l. l ≡ self.now) }
    {
        let held = Held {
            texts: self.held.texts.copy()?,
            message: Kept::Nothing,
        };
        Ok(Letter {
            held: Box::new(alloc, held)?,
        })
    }
}

impl fmt::Debug for Letter {
    fn fmt<W: fmt::Write>(&self, f: &mut fmt::Formatter<W>) -> fmt::Result {
        f.write_str("Letter { .. }")
    }
}
