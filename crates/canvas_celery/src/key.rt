//! Keys of Redis.

ghost use Rattle.std.specs.Prelude.{◌≡◌, ◌++◌, OnOk, IfOk};
ghost use Rattle.canvas_celery.specs.Keys.{size_key, marker_key};

use crate::Run;
use canvas_task::GroupNo;
use std::alloc::{AllocError, Global};

fn push_named(out: &mut Vec<u8>, word: &[u8], id: &[u8], end: &[u8]) -> Result<(), AllocError>
    ensures { OnOk result (out.new.items ≡ out.old.items ++ (word.now ++ (id.now ++ end.now))) }
{
    out.extend_from_slice(word)?;
    out.extend_from_slice(id)?;
    out.extend_from_slice(end)
}

/// Appends a key: a prefix, a word of Celery's, an identifier, and an end.
pub(crate) fn push_key(
    out: &mut Vec<u8>,
    prefix: &[u8],
    word: &[u8],
    id: &[u8],
    end: &[u8],
) -> Result<(), AllocError>
    ensures { OnOk result (out.new.items
        ≡ out.old.items ++ (prefix.now ++ (word.now ++ (id.now ++ end.now)))) }
{
    out.extend_from_slice(prefix)?;
    push_named(out, word, id, end)
}

/// Returns the key of a chord's size.
pub fn size_key(
    alloc: Global,
    run: &Run,
    prefix: &str,
    group: GroupNo,
) -> Result<Vec<u8>, AllocError>
    ensures { IfOk result (λ key. key.items ≡ size_key run.now.digits prefix.now group) }
{
    let mut key = Vec::new(alloc);
    let id = run.group_text(group);
    push_key(
        &mut key,
        prefix.as_bytes(),
        b"celery-taskset-meta-",
        &id,
        b".s",
    )?;
    Ok(key)
}

/// Returns the key that is set once the run was started.
pub fn marker_key(alloc: Global, run: &Run, prefix: &str) -> Result<Vec<u8>, AllocError>
    ensures { IfOk result (λ key. key.items ≡ marker_key run.now.digits prefix.now) }
{
    let mut key = Vec::new(alloc);
    push_key(
        &mut key,
        prefix.as_bytes(),
        b"canvas-run-",
        &run.digits(),
        b"",
    )?;
    Ok(key)
}
