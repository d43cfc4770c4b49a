//! The script of a message or of a completed header.

ghost use Rattle.std.specs.Prelude.{All};
ghost use Rattle.std.proofs.Props.{props};
ghost use Rattle.canvas_task.specs.Apply.{IsInRange};
ghost use Rattle.canvas_core.specs.codes.CoreCode.{range_prop};

use crate::sealed::Sealed;
use canvas_backend::Stored;
use canvas_effects::PartCall;
use canvas_task::{Outcome, TaskNo};
use std::collections::VecDeque;

/// What is left to store and to publish, and the part to return, in this order; and what the latest
/// store of the part's task answered, Again if none was answered.
#[derive(Drop)]
pub(crate) struct Script {
    pub stores: VecDeque<(TaskNo, Outcome)>,
    pub publishes: VecDeque<Sealed>,
    pub part: Option<PartCall>,
    pub latest: Stored,
    ghost in_range: { All (λ e. IsInRange e.1)
        stores.items } by { Prim.hlevel (props, range_prop) },
}
