//! The body of a message: its own text, and its end, which shares texts with other messages.

ghost use Rattle.std.specs.Prelude.{◌≡◌, ◌++◌, false, true, IfOk, IfSome, MatchOption, map, string_bytes};
ghost use Rattle.std.specs.Str.{IsUtf8};
ghost use Rattle.serde_json.specs.Data.{null};
ghost use Rattle.serde_json.specs.Data.{array};
ghost use Rattle.serde_json.specs.Written.{compact_text};
ghost use Rattle.canvas_rewrite.specs.FrozenView.{p_tasks_of, p_task_view, p_line_view};
ghost use Rattle.canvas_semantics.specs.PlacedLine.{PLine};
ghost use Rattle.canvas_envelope.specs.Content.{end_place, place_of};
ghost use Rattle.canvas_envelope.specs.Fits.{fits};
ghost use Rattle.canvas_envelope.specs.steps.Lines.{followed_by};
ghost use Rattle.canvas_envelope.specs.steps.Parts.{is_stop};
ghost use Rattle.canvas_envelope.specs.MessageView.{place_seen, place_view};
ghost use Rattle.canvas_envelope.specs.Pieces.{embed_text, following_text, line_piece_text, list_text};
ghost use Rattle.canvas_envelope.specs.SharedTexts.{IsLineText, IsListed, SaysCarried, backwards, carried_bytes};
ghost use Rattle.canvas_envelope.specs.Wire.{carried_wire, tasks_wire, list_or_null, body_wire};
ghost use Rattle.canvas_envelope.specs.steps.Texts.{onward_text};

use crate::writing::carried::body_text;
use crate::writing::frozen::write_tasks;
use crate::writing::light::put_arguments;
use crate::writing::line::line_text;
use crate::writing::room::{own_room, tasks_room};
use crate::{CarriedText, Embed, Followed, LinePiece, LineText, Message, Piece, Texts, following};
use canvas_rewrite::{FrozenLine, FrozenTask, Place};
use canvas_task::ListOf;
use json::Writer;
use std::alloc::{AllocError, Global};
use std::sync::Arc;

/// A body: the arguments, and its end.
#[derive(Drop)]
pub struct Body {
    pub front: String,
    pub embed: Embed,
}

/// Returns the text of a list of tasks.
fn tasks_text(alloc: Global, tasks: &[FrozenTask]) -> Result<String, AllocError>
    ensures { IfOk result (λ text. string_bytes text
        ≡ compact_text (array (tasks_wire (p_tasks_of (map p_task_view tasks.now))))) }
{
    let mut out = Writer::new(Vec::with_capacity(alloc, tasks_room(tasks))?);
    out.begin_array()?;
    write_tasks(&mut out, tasks)?;
    Ok(String::from_utf8(out.into_inner()).unwrap())
}

/// Returns the list of links or of error callbacks, if there are any.
fn list_of(alloc: Global, tasks: &[FrozenTask]) -> Result<Option<ListOf<u8>>, AllocError>
    ensures value { IfOk result (λ o. list_text o
        ≡ compact_text (list_or_null (tasks_wire (p_tasks_of (map p_task_view tasks.now))))) }
    ensures utf8 { IfOk result (λ o. IsUtf8 (list_text o)) }
{
    if tasks.is_empty() {
        return Ok(None);
    }
    let text = tasks_text(alloc, tasks)?;
    Ok(Some(ListOf::of(text.into_bytes())))
}

/// Returns the text of the rest of a line, without its brackets. A text that the message holds is
/// shared without a comparison: the invariant of `Message` says that it is the right one.
fn rest_piece(alloc: Global, texts: &Texts, rest: &FrozenLine) -> Result<LinePiece, AllocError>
    requires line { IfSome texts.now.line (λ t. IsLineText t (p_line_view rest.now)) }
    requires carried { IfSome texts.now.carried
        (λ t. SaysCarried t.value (end_place (p_line_view rest.now))) }
    ensures value { IfOk result
        (λ p. IsListed (line_piece_text p) (backwards (p_line_view rest.now))) }
    ensures utf8 { IfOk result (λ p. IsUtf8 (line_piece_text p)) }
{
    if let Some(known) = &texts.line {
        if let Some((end, _before)) = known.ends.split_last() {
            let text = Arc::try_clone(&known.text)?;
            return Ok(LinePiece { text, end: *end });
        }
    }
    let LineText { text, .. } = line_text(alloc, rest, &texts.carried)?;
    let end = text.own.len();
    Ok(LinePiece { text, end })
}

/// Returns the known text of the rest of a line, without its brackets.
fn known_piece(known: &LineText) -> Result<Option<LinePiece>, AllocError>
    ensures value { IfOk result (λ o. IfSome o (λ p. (l : PLine) → IsLineText known.now l
        → IsListed (line_piece_text p) (backwards l))) }
    ensures utf8 { IfOk result (λ o. IfSome o (λ p. (l : PLine) → IsLineText known.now l
        → IsUtf8 (line_piece_text p))) }
{
    match known.ends.split_last() {
        Some((end, _before)) => {
            let text = Arc::try_clone(&known.text)?;
            Ok(Some(LinePiece { text, end: *end }))
        }
        None => Ok(None),
    }
}

/// Returns the text of the body that a place carries, if it carries one.
fn text_of(
    alloc: Global,
    place: &Place,
    known: &Option<Arc<CarriedText>>,
) -> Result<Option<Arc<CarriedText>>, AllocError>
    requires { IfSome known.now (λ t. SaysCarried t.value (place_view place.now)) }
    ensures { IfOk result (λ o. MatchOption o (carried_wire (place_view place.now) ≡ null)
        (λ t. carried_bytes t.value ≡ compact_text (carried_wire (place_view place.now)))) }
{
    match &place.chord {
        Some(carried) => match known {
            Some(text) => {
                let text = Arc::try_clone(text)?;
                Ok(Some(text))
            }
            None => {
                let text = body_text(alloc, carried, &None)?;
                Ok(Some(Arc::new(alloc, text)?))
            }
        },
        None => Ok(None),
    }
}

/// Returns the text of the body that a place carries, as what follows.
#[tactic(auto, using(crate::proofs::Written::PieceTexts::carried_utf8))]
fn carried_piece(
    alloc: Global,
    place: &Option<Place>,
    known: &Option<Arc<CarriedText>>,
) -> Result<Option<Piece>, AllocError>
    requires { IfSome known.now (λ t. SaysCarried t.value (place_seen place.now)) }
    ensures value { IfOk result
        (λ o. following_text o ≡ onward_text null (carried_wire (place_seen place.now))) }
    ensures utf8 { IfOk result (λ o. IsUtf8 (following_text o)) }
{
    match place {
        Some(place) => match text_of(alloc, place, known)? {
            Some(text) => Ok(Some(Piece::Carried(text))),
            None => Ok(None),
        },
        None => Ok(None),
    }
}

/// Returns the text of what follows a message: of the rest of its line, or else of the body that
/// its place carries.
fn following_piece(alloc: Global, message: &Message) -> Result<Option<Piece>, AllocError>
    ensures value { IfOk result (λ o. following_text o
        ≡ onward_text (list_or_null (backwards message.now.rest))
        (carried_wire (place_of message.now.own))) }
    ensures utf8 { IfOk result (λ o. IsUtf8 (following_text o)) }
{
    match following(&message.rest) {
        Some(rest) => {
            let piece = rest_piece(alloc, &message.texts, rest)?;
            Ok(Some(Piece::Line(piece)))
        }
        None => carried_piece(alloc, &message.place, &message.texts.carried),
    }
}

/// Makes the body of a message, with the text of what follows it.
fn body_with(alloc: Global, message: &Message, following: Option<Piece>) -> Result<Body, AllocError>
    requires { IsUtf8 (following_text following) }
    ensures value { IfOk result (λ b. (rest : PLine) → following_text following
        ≡ onward_text (list_or_null (backwards rest)) (carried_wire (place_of message.now.own))
        → string_bytes b.front ++ embed_text b.embed
        ≡ compact_text (body_wire (followed_by message.now rest))) }
    ensures utf8 { IfOk result (λ b. IsUtf8 (embed_text b.embed)) }
{
    let mut front = String::with_capacity(alloc, own_room(message))?;
    put_arguments(alloc, &mut front, message.args.get(), message.kwargs.get())?;
    let links = list_of(alloc, message.links.get())?;
    let errbacks = list_of(alloc, message.errbacks.get())?;
    let embed = Embed {
        links,
        following,
        errbacks,
    };
    Ok(Body { front, embed })
}

/// Makes the body of a message. It shares the texts of the rest of the line and of the carried body
/// that the message holds.
pub fn body_of(alloc: Global, message: &Message) -> Result<Body, AllocError>
    ensures value { IfOk result (λ b. string_bytes b.front ++ embed_text b.embed
        ≡ compact_text (body_wire message.now)) }
    ensures utf8 { IfOk result (λ b. IsUtf8 (embed_text b.embed)) }
{
    let following = following_piece(alloc, message)?;
    body_with(alloc, message, following)
}

/// Makes the body of a message that is kept apart from the rest of its line; None if nothing
/// follows, or if the text of the rest isn't known.
pub fn body_of_followed(alloc: Global, followed: &Followed) -> Result<Option<Body>, AllocError>
    ensures value { IfOk result (λ o. IfSome o (λ b. string_bytes b.front ++ embed_text b.embed
        ≡ compact_text (body_wire followed.now))) }
    ensures utf8 { IfOk result (λ o. IfSome o (λ b. IsUtf8 (embed_text b.embed))) }
{
    if !followed.goes_on() {
        return Ok(None);
    }
    let piece = match &followed.texts.line {
        Some(known) => known_piece(known)?,
        None => return Ok(None),
    };
    match piece {
        Some(piece) => {
            let body = body_with(alloc, &followed.message, Some(Piece::Line(piece)))?;
            Ok(Some(body))
        }
        None => Ok(None),
    }
}
