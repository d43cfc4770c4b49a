//! The tokens of a JSON text. Plain tokens, and texts with escapes, are read by this crate in few
//! steps. From the first other token on, such as a key with an escape, the reader of `json` reads
//! the rest, so that it decides about every fault. The model is that of this reader: the tokens
//! that are still to come.

ghost use Rattle.std.specs.Prelude.{◌≡◌, ◌∷◌, [], Some, None, IfOk, IfSome, option_map, MatchResult, MatchOption};
ghost use Rattle.json.specs.Lex.{tokens, fresh, between, lex, punctuate};
ghost use Rattle.json.specs.Json.{after_end_array, read_key};
ghost use Rattle.json.specs.Reads.{token_of, Yields};
ghost use Rattle.json.specs.Reader.{tokens_at};
ghost use Rattle.canvas_sig.specs.declared.unread.Unread.TheVariants.{NotJson};
ghost use Rattle.canvas_sig.specs.steps.Place.{as_kit};
ghost use Rattle.canvas_sig.specs.steps.Plain.{IsSettled};
ghost use Rattle.canvas_sig.specs.steps.Source.{Item};

use crate::escaped::escaped_token;
use crate::place::Place;
use crate::plain::{behind_bracket, closes_or_ends, plain_key, plain_token};
use crate::runs::{first, trimmed};
use crate::unread::Unread;
use bumpalo::Bump;
use json::{Reader, Scratch, Token};
use std::alloc::AllocError;
use std::marker::Model;

/// A source of tokens. Contracts see the tokens that are still to come.
#[derive(Drop)]
pub(crate) struct Source<'a> {
    rest: &'a str,
    place: Place,
    /// The reader from the first token that this crate cannot read.
    reader: Option<Reader<'a>>,
    /// The arena that holds the texts with escapes.
    arena: &'a Bump,
    /// The scratch for the reader. None once it was handed to it.
    scratch: Option<&'a mut Scratch>,
}

impl<'a> Model for Source<'a> {
    ghost use Rattle.std.specs.Prelude.{List};
    ghost use Rattle.json.specs.Token.{Token as SpecToken, tokens_code};

    ghost Value = { List SpecToken };

    ghost coded = { tokens_code };

    ghost use Rattle.canvas_sig.specs.steps.Source.{source_view, IsSource};

    ghost view = { source_view };

    ghost invariant = { IsSource };
}

/// Returns the next token if it is not plain and yet known: the fault of a comma without a value
/// after it, or None at the end.
fn last_token<'a>(place: Place, text: &str) -> Option<Option<Token<'a>>>
    requires { IsSettled place text.now }
    ensures { MatchOption result
        (tokens_at (as_kit place) text.now ≡ punctuate fresh (lex between text.now))
        (λ r. Yields (tokens_at (as_kit place) text.now) r []) }
{
    match place {
        Place::Fresh => None,
        Place::AfterValue => { if text.is_empty() { Some(None) } else { None } }
        Place::AfterComma => {
            if closes_or_ends(text) {
                Some(Some(Token::Bad))
            } else {
                None
            }
        }
        Place::Failed => Some(None),
    }
}

impl<'a> Source<'a> {
    pub(crate) fn new(arena: &'a Bump, scratch: &'a mut Scratch, text: &'a str) -> Source<'a>
        ensures { result ≡ tokens text.now }
    {
        Source {
            rest: trimmed(text),
            place: Place::Fresh,
            reader: None,
            arena,
            scratch: Some(scratch),
        }
    }

    /// Returns the next token. The only error is an allocation failure, after which no token is
    /// known.
    #[inline(always)]
    pub(crate) fn next(&mut self) -> Result<Option<Token<'a>>, AllocError>
        ensures { IfOk result (λ r. Yields self.old r self.new) }
    {
        if self.place.may_begin() {
            if let Some((token, rest, place)) = plain_token(self.rest) {
                self.rest = rest;
                self.place = place;
                return Ok(Some(token));
            }
        }
        self.next_apart()
    }

    #[inline(never)]
    fn next_apart(&mut self) -> Result<Option<Token<'a>>, AllocError>
        ensures { IfOk result (λ r. Yields self.old r self.new) }
    {
        self.next_slowly()
    }

    /// Returns the next token. It is an error if there is none.
    #[inline(always)]
    pub(crate) fn next_token(&mut self) -> Result<Token<'a>, Unread>
        ensures { MatchResult result (λ t. self.old ≡ token_of t ∷ self.new)
            (λ e. e ≡ NotJson → self.old ≡ []) }
    {
        self.next()?.ok_or(Unread::NotJson)
    }

    /// Returns the next token if it is not plain.
    #[inline(always)]
    fn next_slowly(&mut self) -> Result<Option<Token<'a>>, AllocError>
        ensures { IfOk result (λ r. Yields self.old r self.new) }
    {
        if let Some(reader) = &mut self.reader {
            return Ok(reader.next());
        }
        if let Some(last) = last_token(self.place, self.rest) {
            self.place = Place::Failed;
            return Ok(last);
        }
        let Some(scratch) = self.scratch.take() else {
            return Err(AllocError);
        };
        if self.place.may_begin() {
            if let Some((token, rest, place)) = escaped_token(self.arena, scratch, self.rest)? {
                self.rest = rest;
                self.place = place;
                self.scratch = Some(scratch);
                return Ok(Some(token));
            }
        }
        let mut reader = Reader::new(self.rest, scratch)?;
        let token = reader.next();
        self.reader = Some(reader);
        self.place = Place::Failed;
        Ok(token)
    }

    /// Returns the next key, or None at the brace that closes an object.
    #[inline(always)]
    pub(crate) fn next_key(&mut self) -> Result<Option<&'a str>, Unread>
        ensures { MatchResult result
            (λ k. read_key self.old ≡ Some (option_map (λ s. s.now) k, self.new))
            (λ e. e ≡ NotJson → read_key self.old ≡ None) }
    {
        if self.place.may_begin() {
            if let Some((key, rest)) = plain_key(self.rest) {
                self.rest = rest;
                self.place = Place::Fresh;
                return Ok(Some(key));
            }
        }
        if self.place.may_close() && first(self.rest) == b'}' {
            if let Some((rest, place)) = behind_bracket(self.rest) {
                self.rest = rest;
                self.place = place;
                return Ok(None);
            }
        }
        self.next_key_slowly()
    }

    #[inline(never)]
    fn next_key_slowly(&mut self) -> Result<Option<&'a str>, Unread>
        ensures { MatchResult result
            (λ k. read_key self.old ≡ Some (option_map (λ s. s.now) k, self.new))
            (λ e. e ≡ NotJson → read_key self.old ≡ None) }
    {
        match self.next_slowly()? {
            Some(Token::Key(key)) => Ok(Some(key)),
            Some(Token::EndObject) => Ok(None),
            _ => Err(Unread::NotJson),
        }
    }

    /// Returns the first token of the next item, or None at the bracket that closes an array.
    #[inline(always)]
    pub(crate) fn next_item(&mut self) -> Result<Option<Token<'a>>, Unread>
        ensures { MatchResult result (λ r. Item self.old (option_map token_of r) self.new)
            (λ e. e ≡ NotJson → self.old ≡ []) }
    {
        if self.place.may_begin() {
            if let Some((token, rest, place)) = plain_token(self.rest) {
                self.rest = rest;
                self.place = place;
                return Ok(Some(token));
            }
        }
        if self.place.may_close() && first(self.rest) == b']' {
            if let Some((rest, place)) = behind_bracket(self.rest) {
                self.rest = rest;
                self.place = place;
                return Ok(None);
            }
        }
        self.next_item_slowly()
    }

    #[inline(never)]
    fn next_item_slowly(&mut self) -> Result<Option<Token<'a>>, Unread>
        ensures { MatchResult result (λ r. Item self.old (option_map token_of r) self.new)
            (λ e. e ≡ NotJson → self.old ≡ []) }
    {
        match self.next_slowly()? {
            Some(Token::EndArray) => Ok(None),
            Some(token) => Ok(Some(token)),
            None => Err(Unread::NotJson),
        }
    }
}
