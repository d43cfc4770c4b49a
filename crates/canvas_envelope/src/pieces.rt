//! The texts of a message in a queue of one process, and the envelope that they make.

ghost use Rattle.std.specs.Prelude.{◌≡◌, ◌++◌, ◌-◌, Some, IfOk, OnOk, take, drop};
ghost use Rattle.canvas_envelope.specs.Pieces.{body_text, envelope_seen, following_text, joined, line_piece_text, own_between};
ghost use Rattle.canvas_envelope.specs.Wire.{identifier};
ghost use Rattle.canvas_envelope.specs.SharedTexts.{head_text};

use crate::{CarriedText, ElementsText, Embed, Envelope, Head};
use canvas_task::{ListOf, Memory};
use std::alloc::{AllocError, Global};
use std::sync::Arc;

/// A prefix of the text of a line's elements, up to the end of one of them.
#[derive(Drop)]
pub struct LinePiece {
    /// The text that the messages of the line share.
    pub text: Arc<ElementsText>,
    /// The number of bytes after its head that belong to the piece.
    pub end: usize,
}

/// A text that several bodies share.
#[derive(Drop)]
pub enum Piece {
    /// A text of the body that a place carries.
    Carried(Arc<CarriedText>),
    /// A text of the rest of a line.
    Line(LinePiece),
}

/// An envelope of this process. Its own text has what differs from message to message, in one
/// allocation; what is the same in each message is written with the envelope.
#[derive(Drop)]
pub struct Pieces {
    /// The arguments, which are the front of the body; then as JSON what properties and headers
    /// name: the group or chord, the task's identifier, its parent's, and the task's name.
    pub own: ListOf<u8>,
    /// The end of the arguments, in bytes.
    pub front_end: usize,
    /// The end of the group or chord.
    pub group_end: usize,
    /// The end of the task's identifier.
    pub id_end: usize,
    /// The end of the parent's identifier.
    pub parent_end: usize,
    /// The rest of the body.
    pub embed: Embed,
}

/// Returns the bytes before an index.
fn up_to(bytes: &[u8], end: usize) -> &[u8]
    ensures { result.now ≡ take end bytes.now }
{
    &bytes[..end.min(bytes.len())]
}

/// Returns the bytes from an index on.
fn behind(bytes: &[u8], start: usize) -> &[u8]
    ensures { result.now ≡ drop start bytes.now }
{
    &bytes[start.min(bytes.len())..]
}

/// Returns the bytes between two indices.
fn between(bytes: &[u8], start: usize, end: usize) -> &[u8]
    ensures { result.now ≡ take (end - start) (drop start bytes.now) }
{
    up_to(behind(bytes, start), end.saturating_sub(start))
}

/// Appends a piece to a text.
pub(crate) fn put(text: &mut Vec<u8>, piece: &[u8]) -> Result<(), AllocError>
    ensures { OnOk result (text.new.items ≡ text.old.items ++ piece.now) }
{
    text.extend_from_slice(piece)
}

/// The length of the properties of a message before the identifier of its task.
const BEFORE_IDENTIFIER: usize = 79;

/// Returns the identifier that properties name, in its quotes.
fn identifier_in(properties: &[u8]) -> &[u8]
    ensures { result.now ≡ identifier properties.now }
{
    let rest = behind(properties, BEFORE_IDENTIFIER);
    up_to(rest, rest.len().saturating_sub(1))
}

fn put_head(body: &mut Vec<u8>, head: &Option<Head>) -> Result<(), AllocError>
    ensures { OnOk result (body.new.items ≡ body.old.items ++ head_text head.now) }
{
    match head {
        Some(head) => {
            body.extend_from_slice(head.before.as_bytes())?;
            head.carried.put(body)
        }
        None => Ok(()),
    }
}

fn head_room(head: &Option<Head>) -> usize {
    match head {
        Some(head) => head.before.len().saturating_add(head.carried.room()),
        None => 0,
    }
}

impl LinePiece {
    pub(crate) fn put(&self, body: &mut Vec<u8>) -> Result<(), AllocError>
        ensures { OnOk result (body.new.items ≡ body.old.items ++ line_piece_text self.now) }
    {
        put_head(body, &self.text.head)?;
        body.extend_from_slice(up_to(self.text.own.as_bytes(), self.end))
    }

    fn room(&self) -> usize {
        head_room(&self.text.head).saturating_add(self.end)
    }

    fn copy(&self) -> Result<LinePiece, AllocError>
        ensures { IfOk result (λ p. line_piece_text p ≡ line_piece_text self.now) }
    {
        Ok(LinePiece {
            text: Arc::try_clone(&self.text)?,
            end: self.end,
        })
    }
}

impl Piece {
    /// Returns its length in bytes.
    pub(crate) fn room(&self) -> usize {
        match self {
            Piece::Carried(text) => text.room(),
            Piece::Line(piece) => piece.room(),
        }
    }

    pub(crate) fn copy(&self) -> Result<Piece, AllocError>
        ensures { IfOk result (λ p. following_text (Some p) ≡ following_text (Some self.now)) }
    {
        match self {
            Piece::Carried(text) => Ok(Piece::Carried(Arc::try_clone(text)?)),
            Piece::Line(piece) => Ok(Piece::Line(piece.copy()?)),
        }
    }
}

/// The room for what is the same in the properties or headers of each message.
const SAME_ROOM: usize = 112;

impl Pieces {
    /// Borrows the task's identifier, in its quotes.
    fn id(&self) -> &[u8]
        ensures value { result.now ≡ own_between self.now.group_end self.now.id_end self.now }
        ensures named { result.now ≡ identifier (joined self.now).properties }
    {
        between(self.own.get(), self.group_end, self.id_end)
    }

    fn properties(&self, alloc: Global) -> Result<Vec<u8>, AllocError>
        ensures { IfOk result (λ text. text.items ≡ (joined self.now).properties) }
    {
        let id = self.id();
        let mut text = Vec::with_capacity(alloc, SAME_ROOM.saturating_add(id.len()))?;
        put(
            &mut text,
            b"{\"content_encoding\":\"utf-8\",\"content_type\":\"application/json\",",
        )?;
        put(&mut text, b"\"correlation_id\":")?;
        put(&mut text, id)?;
        put(&mut text, b"}")?;
        Ok(text)
    }

    fn headers(&self, alloc: Global) -> Result<Vec<u8>, AllocError>
        ensures { IfOk result (λ text. text.items ≡ (joined self.now).headers) }
    {
        let own = self.own.get();
        let mut text = Vec::with_capacity(alloc, SAME_ROOM.saturating_add(own.len()))?;
        put(&mut text, b"{\"group\":")?;
        put(&mut text, between(own, self.front_end, self.group_end))?;
        put(&mut text, b",\"id\":")?;
        put(&mut text, between(own, self.group_end, self.id_end))?;
        put(&mut text, b",\"lang\":\"rs\",\"parent_id\":")?;
        put(&mut text, between(own, self.id_end, self.parent_end))?;
        put(
            &mut text,
            b",\"root_id\":\"00000000-0000-8000-8000-000000000001\",\"task\":",
        )?;
        put(&mut text, behind(own, self.parent_end))?;
        put(&mut text, b"}")?;
        Ok(text)
    }

    fn body(&self, alloc: Global) -> Result<Vec<u8>, AllocError>
        ensures { IfOk result (λ text. text.items ≡ body_text self.now) }
    {
        let front = up_to(self.own.get(), self.front_end);
        let room = front.len().saturating_add(self.embed.room());
        let mut text = Vec::with_capacity(alloc, room)?;
        put(&mut text, front)?;
        self.embed.put(&mut text)?;
        Ok(text)
    }

    /// Writes the envelope as three texts.
    pub fn join(&self, alloc: Global) -> Result<Envelope, Memory>
        ensures { IfOk result (λ e. e ≡ joined self.now) }
    {
        let properties = ListOf::of(self.properties(alloc)?);
        let headers = ListOf::of(self.headers(alloc)?);
        let body = ListOf::of(self.body(alloc)?);
        Ok(Envelope {
            properties,
            headers,
            body,
        })
    }

    /// Clones the envelope. The clone shares the text of what follows.
    fn copy(&self) -> Result<Pieces, Memory>
        ensures { IfOk result (λ p. joined p ≡ joined self.now) }
    {
        let own = self.own.clone()?;
        let embed = self.embed.copy()?;
        Ok(Pieces {
            own,
            front_end: self.front_end,
            group_end: self.group_end,
            id_end: self.id_end,
            parent_end: self.parent_end,
            embed,
        })
    }
}

/// An envelope that came from elsewhere, or one in pieces.
#[derive(Drop)]
pub(crate) enum LetterTexts {
    /// An envelope from elsewhere: three texts.
    Whole(Envelope),
    /// Texts of which one may be shared.
    Pieced(Pieces),
}

impl LetterTexts {
    pub(crate) fn envelope(&self, alloc: Global) -> Result<Envelope, Memory>
        ensures { IfOk result (λ e. e ≡ envelope_seen self.now) }
    {
        match self {
            LetterTexts::Whole(envelope) => envelope.copy(),
            LetterTexts::Pieced(pieces) => pieces.join(alloc),
        }
    }

    pub(crate) fn identifier(&self) -> &[u8]
        ensures { result.now ≡ identifier (envelope_seen self.now).properties }
    {
        match self {
            LetterTexts::Whole(envelope) => identifier_in(envelope.properties.get()),
            LetterTexts::Pieced(pieces) => pieces.id(),
        }
    }

    pub(crate) fn copy(&self) -> Result<LetterTexts, Memory>
        ensures { IfOk result (λ s. envelope_seen s ≡ envelope_seen self.now) }
    {
        match self {
            LetterTexts::Whole(envelope) => Ok(LetterTexts::Whole(envelope.copy()?)),
            LetterTexts::Pieced(pieces) => Ok(LetterTexts::Pieced(pieces.copy()?)),
        }
    }
}
