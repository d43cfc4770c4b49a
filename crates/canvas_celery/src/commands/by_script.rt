//! A start as one script, which Redis runs whole or not at all.

ghost use Rattle.std.specs.Prelude.{ℕ, List, ◌≡◌, ◌+◌, ◌++◌, ◌∷◌, [], OnOk, IfOk, Some, None, map, codes, decimal, length};
ghost use Rattle.canvas_task.specs.Text.{Text};
ghost use Rattle.canvas_celery.specs.Resp.{command_bytes, word_bytes, words_bytes};
ghost use Rattle.canvas_celery.specs.Keys.{size_key, marker_key};
ghost use Rattle.canvas_celery.specs.Script.{script, database_words, script_command};
ghost use Rattle.canvas_celery.specs.steps.Around.{Surrounds};
ghost use Rattle.canvas_celery.specs.steps.Sizes.{size_view};
ghost use Rattle.canvas_celery.specs.steps.Words.{database_word};
ghost use Rattle.canvas_celery.specs.ExportView.{setting};

use crate::commands::Target;
use crate::commands::around::Around;
use crate::commands::resp::{begin_command, push_number, push_word};
use crate::commands::starting::Size;
use crate::{Run, marker_key, size_key};
use canvas_envelope::Message;
use std::alloc::{AllocError, Global};

/// Checks that the text is complete, that the queue's key can be a list, and that the run wasn't
/// started before. Then sets the chords' sizes under their keys and the run's marker, and last puts
/// the messages on the queue. A start that is refused, also for a database that the server lacks,
/// sets no key.
pub(crate) const SCRIPT: &str = concat!(
    "if ARGV[#ARGV] ~= 'whole' then\n",
    "  return redis.error_reply('CUT nothing was started: the text was cut')\n",
    "end\n",
    "local function at(database)\n",
    "  if database ~= '' then redis.call('SELECT', database) end\n",
    "end\n",
    "at(ARGV[3])\n",
    "local kind = redis.call('TYPE', KEYS[2]).ok\n",
    "if kind ~= 'none' and kind ~= 'list' then\n",
    "  return redis.error_reply('QUEUE nothing was started: the key of the queue is no list')\n",
    "end\n",
    "at(ARGV[2])\n",
    "if redis.call('EXISTS', KEYS[1]) == 1 then\n",
    "  return redis.error_reply('STARTED nothing was started: this run was started before')\n",
    "end\n",
    "for i = 3, #KEYS do redis.call('SETEX', KEYS[i], ARGV[1], ARGV[i + 1]) end\n",
    "redis.call('SET', KEYS[1], 'started')\n",
    "at(ARGV[3])\n",
    "for i = #KEYS + 2, #ARGV - 1 do redis.call('LPUSH', KEYS[2], ARGV[i]) end\n",
    "return #ARGV - #KEYS - 2\n",
);

/// Appends the script, the number of keys, and the first two of them.
fn push_head(
    alloc: Global,
    out: &mut Vec<u8>,
    run: &Run,
    target: &Target<'_>,
    sizes: &[Size],
) -> Result<(), AllocError>
    ensures { OnOk result (out.new.items ≡ out.old.items ++ words_bytes
        (codes "EVAL" ∷ script ∷ decimal (length sizes.now + 2)
        ∷ marker_key run.now.digits target.now.prefix.now ∷ target.now.queue.now ∷ [])) }
{
    let marker = marker_key(alloc, run, target.prefix)?;
    push_word(alloc, out, b"EVAL")?;
    push_word(alloc, out, SCRIPT.as_bytes())?;
    push_number(alloc, out, sizes.len() as u64 + 2)?;
    push_word(alloc, out, &marker)?;
    push_word(alloc, out, target.queue.as_bytes())
}

fn push_size_key(
    alloc: Global,
    out: &mut Vec<u8>,
    run: &Run,
    prefix: &str,
    size: &Size,
) -> Result<(), AllocError>
    ensures { OnOk result (out.new.items ≡ out.old.items
        ++ word_bytes (size_key run.now.digits prefix.now (size_view size.now).0)) }
{
    let key = size_key(alloc, run, prefix, size.group)?;
    push_word(alloc, out, &key)
}

fn push_size_keys(
    alloc: Global,
    out: &mut Vec<u8>,
    run: &Run,
    prefix: &str,
    sizes: &[Size],
) -> Result<(), AllocError>
    ensures { OnOk result (out.new.items ≡ out.old.items ++ words_bytes
        (map (λ s. size_key run.now.digits prefix.now (size_view s).0) sizes.now)) }
{
    for size in sizes {
        push_size_key(alloc, out, run, prefix, size)?;
    }
    Ok(())
}

/// Appends the number of a database; an empty word if none is chosen.
fn push_database(alloc: Global, out: &mut Vec<u8>, database: Option<u32>) -> Result<(), AllocError>
    ensures { OnOk result
        (out.new.items ≡ out.old.items ++ word_bytes (database_word database)) }
{
    match database {
        Some(number) => push_number(alloc, out, u64::from(number)),
        None => push_word(alloc, out, b""),
    }
}

/// Appends the databases of the results and of the queue.
fn push_databases(
    alloc: Global,
    out: &mut Vec<u8>,
    backend: Option<u32>,
    broker: Option<u32>,
) -> Result<(), AllocError>
    ensures { OnOk result (out.new.items ≡ out.old.items
        ++ words_bytes (database_word backend ∷ database_word broker ∷ [])) }
{
    push_database(alloc, out, backend)?;
    push_database(alloc, out, broker)
}

fn push_chosen(
    alloc: Global,
    out: &mut Vec<u8>,
    databases: Option<(u32, u32)>,
) -> Result<(), AllocError>
    ensures { OnOk result
        (out.new.items ≡ out.old.items ++ words_bytes (database_words databases)) }
{
    match databases {
        Some((broker, backend)) => push_databases(alloc, out, Some(backend), Some(broker)),
        None => push_databases(alloc, out, None, None),
    }
}

/// Appends how long sizes are kept, and the two databases.
fn push_settings(alloc: Global, out: &mut Vec<u8>, target: &Target<'_>) -> Result<(), AllocError>
    ensures { OnOk result (out.new.items ≡ out.old.items ++ words_bytes
        (decimal target.now.expires ∷ database_words target.now.databases)) }
{
    push_number(alloc, out, u64::from(target.expires))?;
    push_chosen(alloc, out, target.databases)
}

fn push_members(alloc: Global, out: &mut Vec<u8>, sizes: &[Size]) -> Result<(), AllocError>
    ensures { OnOk result (out.new.items ≡ out.old.items
        ++ words_bytes (map (λ s. decimal (size_view s).1) sizes.now)) }
{
    for size in sizes {
        push_number(alloc, out, size.members as u64)?;
    }
    Ok(())
}

/// Appends the command that runs the script, up to the texts of its messages.
fn push_script(
    alloc: Global,
    out: &mut Vec<u8>,
    run: &Run,
    target: &Target<'_>,
    sizes: &[Size],
    messages: &[Message],
) -> Result<(), AllocError>
    ensures { OnOk result ((texts : List Text) → length texts ≡ length messages.now
        → out.new.items ++ (words_bytes texts ++ word_bytes (codes "whole"))
        ≡ out.old.items ++ command_bytes
        (script_command run.now.digits (setting target.now) (map size_view sizes.now) texts)) }
{
    begin_command(alloc, out, sizes.len() + sizes.len() + messages.len() + 9)?;
    push_head(alloc, out, run, target, sizes)?;
    push_size_keys(alloc, out, run, target.prefix, sizes)?;
    push_settings(alloc, out, target)?;
    push_members(alloc, out, sizes)
}

/// Returns the bytes around the texts of these messages in that command.
pub(crate) fn around_in_script(
    alloc: Global,
    run: &Run,
    target: &Target<'_>,
    sizes: &[Size],
    messages: &[Message],
) -> Result<Around, AllocError>
    ensures { IfOk result (λ a. Surrounds a (length messages.now) (λ texts.
        script_command run.now.digits (setting target.now) (map size_view sizes.now) texts ∷ [])) }
{
    let mut front = Vec::new(alloc);
    push_script(alloc, &mut front, run, target, sizes, messages)?;
    let mut back = Vec::new(alloc);
    push_word(alloc, &mut back, b"whole")?;
    Ok(Around { front, back })
}
