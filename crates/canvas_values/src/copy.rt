//! Cloning signatures.
ghost use Rattle.std.specs.Prelude.{◌≡◌, IfOk, map};
ghost use Rattle.canvas_values.specs.SignatureView.{task_view};

use crate::TaskSig;
use canvas_task::{ListOf, copy_args, copy_kwargs};
use std::alloc::{AllocError, Global};

/// Clones a signature, with its links and error callbacks.
#[cycle(copy)]
#[tactic(auto, using(crate::proofs::Views::task_seen))]
pub fn copy_sig(alloc: Global, sig: &TaskSig) -> Result<TaskSig, AllocError>
    ensures { IfOk result (λ copy. task_view copy ≡ task_view sig.now) }
{
    let name = sig.name.clone()?;
    let args = copy_args(&sig.args)?;
    let kwargs = copy_kwargs(alloc, &sig.kwargs)?;
    let links = copy_sigs(alloc, sig.links.get())?;
    let errbacks = copy_sigs(alloc, sig.errbacks.get())?;
    Ok(TaskSig {
        name,
        args,
        kwargs,
        immutable: sig.immutable,
        links,
        errbacks,
    })
}

/// Clones several signatures, in order.
#[cycle(copy)]
pub fn copy_sigs(alloc: Global, sigs: &[TaskSig]) -> Result<ListOf<TaskSig>, AllocError>
    ensures { IfOk result (λ copies. map task_view copies ≡ map task_view sigs.now) }
{
    let mut copies = Vec::new(alloc);
    for sig in sigs {
        copies.push(copy_sig(alloc, sig)?)?;
    }
    Ok(ListOf::of(copies))
}
