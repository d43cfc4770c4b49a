//! The body that a place carries. The members of a header, their messages and their parts share it.

ghost use Rattle.std.specs.Prelude.{◌≡◌, IfOk};
ghost use Rattle.canvas_envelope.specs.MessageView.{carried_view};

use canvas_rewrite::Carried;
use std::alloc::AllocError;
use std::sync::Arc;

/// Returns another handle to the same body, for the same number of members.
pub fn share_carried(carried: &Carried) -> Result<Carried, AllocError>
    ensures { IfOk result (λ same. carried_view same ≡ carried_view carried.now) }
{
    Ok(Carried {
        size: carried.size,
        body: Arc::try_clone(&carried.body)?,
    })
}
