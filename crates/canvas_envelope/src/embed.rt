//! The end of a body: its last item, the embed, which has the callbacks and what follows the task.

ghost use Rattle.std.specs.Prelude.{◌≡◌, ◌++◌, Some, IfOk, OnOk};
ghost use Rattle.canvas_envelope.specs.Pieces.{embed_text, following_text, list_text};

use crate::Piece;
use crate::pieces::put;
use canvas_task::ListOf;
use std::alloc::AllocError;

/// The end of a body, after the arguments. What is the same in each body is written with the
/// envelope.
#[derive(Drop)]
pub struct Embed {
    /// The links as a list, if there are any.
    pub links: Option<ListOf<u8>>,
    /// What follows the task, if anything does: a text that several bodies share.
    pub following: Option<Piece>,
    /// The error callbacks as a list, if there are any.
    pub errbacks: Option<ListOf<u8>>,
}

/// Appends a list, or null.
fn put_list(body: &mut Vec<u8>, list: &Option<ListOf<u8>>) -> Result<(), AllocError>
    ensures { OnOk result (body.new.items ≡ body.old.items ++ list_text list.now) }
{
    match list {
        Some(list) => put(body, list.get()),
        None => put(body, b"null"),
    }
}

/// Appends the members `chain` and `chord`, of which one is the piece.
fn put_piece(body: &mut Vec<u8>, piece: &Piece) -> Result<(), AllocError>
    ensures { OnOk result (body.new.items ≡ body.old.items ++ following_text (Some piece.now)) }
{
    match piece {
        Piece::Line(piece) => {
            put(body, b"\"chain\":[")?;
            piece.put(body)?;
            put(body, b"],\"chord\":null")
        }
        Piece::Carried(text) => {
            put(body, b"\"chain\":null,\"chord\":")?;
            text.put(body)
        }
    }
}

/// Appends the members `chain` and `chord`.
fn put_following(body: &mut Vec<u8>, following: &Option<Piece>) -> Result<(), AllocError>
    ensures { OnOk result (body.new.items ≡ body.old.items ++ following_text following.now) }
{
    match following {
        Some(piece) => put_piece(body, piece),
        None => put(body, b"\"chain\":null,\"chord\":null"),
    }
}

fn copy_following(following: &Option<Piece>) -> Result<Option<Piece>, AllocError>
    ensures { IfOk result (λ p. following_text p ≡ following_text following.now) }
{
    match following {
        Some(piece) => Ok(Some(piece.copy()?)),
        None => Ok(None),
    }
}

fn copy_list(list: &Option<ListOf<u8>>) -> Result<Option<ListOf<u8>>, AllocError>
    ensures { IfOk result (λ l. list_text l ≡ list_text list.now) }
{
    match list {
        Some(list) => Ok(Some(list.clone()?)),
        None => Ok(None),
    }
}

/// Returns the length of a list in bytes, if there is one.
fn list_room(list: &Option<ListOf<u8>>) -> usize {
    match list {
        Some(list) => list.get().len(),
        None => 0,
    }
}

/// The room for what is the same in each embed.
const SAME_ROOM: usize = 64;

impl Embed {
    /// Appends its text.
    pub(crate) fn put(&self, body: &mut Vec<u8>) -> Result<(), AllocError>
        ensures { OnOk result (body.new.items ≡ body.old.items ++ embed_text self.now) }
    {
        put(body, b",{\"callbacks\":")?;
        put_list(body, &self.links)?;
        put(body, b",")?;
        put_following(body, &self.following)?;
        put(body, b",\"errbacks\":")?;
        put_list(body, &self.errbacks)?;
        put(body, b"}]")
    }

    /// Returns at least the length of its text, in bytes.
    pub(crate) fn room(&self) -> usize {
        let following = match &self.following {
            Some(piece) => piece.room(),
            None => 0,
        };
        SAME_ROOM
            .saturating_add(list_room(&self.links))
            .saturating_add(following)
            .saturating_add(list_room(&self.errbacks))
    }

    /// Clones the embed. The clone shares the text of what follows.
    pub(crate) fn copy(&self) -> Result<Embed, AllocError>
        ensures { IfOk result (λ e. embed_text e ≡ embed_text self.now) }
    {
        let links = copy_list(&self.links)?;
        let following = copy_following(&self.following)?;
        let errbacks = copy_list(&self.errbacks)?;
        Ok(Embed {
            links,
            following,
            errbacks,
        })
    }
}
