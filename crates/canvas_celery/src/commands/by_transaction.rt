//! A start as a transaction, for a Redis that takes no scripts.

ghost use Rattle.std.specs.Prelude.{◌≡◌, ◌++◌, ◌∷◌, [], List, OnOk, IfOk, length, map, string_bytes, codes};
ghost use Rattle.canvas_task.specs.Text.{Text};
ghost use Rattle.canvas_celery.specs.Resp.{command_bytes, words_bytes, resp};
ghost use Rattle.canvas_celery.specs.Transaction.{size_command, select, select_backend, select_broker, sizes_between, transaction};
ghost use Rattle.canvas_celery.specs.steps.Around.{Surrounds};
ghost use Rattle.canvas_celery.specs.steps.Sizes.{size_view};
ghost use Rattle.canvas_celery.specs.ExportView.{setting};

use crate::commands::Target;
use crate::commands::around::Around;
use crate::commands::resp::{begin_command, decimal_of, push_command, push_word};
use crate::commands::starting::Size;
use crate::{Run, size_key};
use canvas_envelope::Message;
use std::alloc::{AllocError, Global};

fn push_size(
    alloc: Global,
    out: &mut Vec<u8>,
    run: &Run,
    target: &Target<'_>,
    size: &Size,
) -> Result<(), AllocError>
    ensures { OnOk result (out.new.items ≡ out.old.items ++ command_bytes
        (size_command run.now.digits target.now.prefix.now target.now.expires
        (size_view size.now))) }
{
    let key = size_key(alloc, run, target.prefix, size.group)?;
    let expires = decimal_of(alloc, u64::from(target.expires))?;
    let members = decimal_of(alloc, size.members as u64)?;
    push_command(
        alloc,
        out,
        &[
            b"SETEX",
            key.as_slice(),
            expires.as_bytes(),
            members.as_bytes(),
        ],
    )
}

/// Appends the command that puts messages on the queue, up to their texts.
fn push_queue(
    alloc: Global,
    out: &mut Vec<u8>,
    queue: &str,
    messages: &[Message],
) -> Result<(), AllocError>
    ensures { OnOk result ((texts : List Text) → length texts ≡ length messages.now
        → out.new.items ++ words_bytes texts
        ≡ out.old.items ++ command_bytes (codes "LPUSH" ∷ queue.now ∷ texts)) }
{
    begin_command(alloc, out, messages.len() + 2)?;
    push_word(alloc, out, b"LPUSH")?;
    push_word(alloc, out, queue.as_bytes())
}

fn push_plain(alloc: Global, out: &mut Vec<u8>, word: &[u8]) -> Result<(), AllocError>
    ensures { OnOk result
        (out.new.items ≡ out.old.items ++ command_bytes (word.now ∷ [])) }
{
    push_command(alloc, out, &[word])
}

fn push_select(alloc: Global, out: &mut Vec<u8>, database: u32) -> Result<(), AllocError>
    ensures { OnOk result
        (out.new.items ≡ out.old.items ++ command_bytes (select database)) }
{
    let number = decimal_of(alloc, u64::from(database))?;
    push_command(alloc, out, &[b"SELECT", number.as_bytes()])
}

/// Appends the command that chooses the backend's database, if one is chosen.
fn push_backend(
    alloc: Global,
    out: &mut Vec<u8>,
    databases: Option<(u32, u32)>,
) -> Result<(), AllocError>
    ensures { OnOk result
        (out.new.items ≡ out.old.items ++ resp (select_backend databases)) }
{
    match databases {
        Some((_, backend)) => push_select(alloc, out, backend),
        None => Ok(()),
    }
}

/// Appends the command that chooses the broker's database, if one is chosen.
fn push_broker(
    alloc: Global,
    out: &mut Vec<u8>,
    databases: Option<(u32, u32)>,
) -> Result<(), AllocError>
    ensures { OnOk result
        (out.new.items ≡ out.old.items ++ resp (select_broker databases)) }
{
    match databases {
        Some((broker, _)) => push_select(alloc, out, broker),
        None => Ok(()),
    }
}

fn push_size_commands(
    alloc: Global,
    out: &mut Vec<u8>,
    run: &Run,
    target: &Target<'_>,
    sizes: &[Size],
) -> Result<(), AllocError>
    ensures { OnOk result (out.new.items ≡ out.old.items ++ resp (map (λ s. size_command
        run.now.digits target.now.prefix.now target.now.expires (size_view s)) sizes.now)) }
{
    for size in sizes {
        push_size(alloc, out, run, target, size)?;
    }
    Ok(())
}

/// Appends the commands between MULTI and the messages.
fn push_sizes_between(
    alloc: Global,
    out: &mut Vec<u8>,
    run: &Run,
    target: &Target<'_>,
    sizes: &[Size],
) -> Result<(), AllocError>
    ensures { OnOk result (out.new.items ≡ out.old.items ++ resp
        (sizes_between run.now.digits (setting target.now) (map size_view sizes.now))) }
{
    push_backend(alloc, out, target.databases)?;
    push_size_commands(alloc, out, run, target, sizes)?;
    push_broker(alloc, out, target.databases)
}

/// Appends the commands of the transaction, up to the texts of its messages.
fn push_transaction(
    alloc: Global,
    out: &mut Vec<u8>,
    run: &Run,
    target: &Target<'_>,
    sizes: &[Size],
    messages: &[Message],
) -> Result<(), AllocError>
    ensures { OnOk result ((texts : List Text) → length texts ≡ length messages.now
        → out.new.items ++ (words_bytes texts ++ command_bytes (codes "EXEC" ∷ []))
        ≡ out.old.items ++ resp
        (transaction run.now.digits (setting target.now) (map size_view sizes.now) texts)) }
{
    push_plain(alloc, out, b"MULTI")?;
    push_sizes_between(alloc, out, run, target, sizes)?;
    push_queue(alloc, out, target.queue, messages)
}

/// Returns the bytes around the texts of these messages in these commands.
pub(crate) fn around_in_transaction(
    alloc: Global,
    run: &Run,
    target: &Target<'_>,
    sizes: &[Size],
    messages: &[Message],
) -> Result<Around, AllocError>
    ensures { IfOk result (λ a. Surrounds a (length messages.now)
        (transaction run.now.digits (setting target.now) (map size_view sizes.now))) }
{
    let mut front = Vec::new(alloc);
    push_transaction(alloc, &mut front, run, target, sizes, messages)?;
    let mut back = Vec::new(alloc);
    push_plain(alloc, &mut back, b"EXEC")?;
    Ok(Around { front, back })
}
