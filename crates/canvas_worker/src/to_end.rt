//! A worker from its beginning to its end.

ghost use Rattle.std.specs.Prelude.{◌≡◌, IfSome};
ghost use Rattle.canvas_semantics.specs.Line.{Line};
ghost use Rattle.canvas_rewrite.specs.Planned.{IsPlan};
ghost use Rattle.canvas_history.specs.Roster.{roster_of};
ghost use Rattle.canvas_worker.specs.Finished.{Finished};

use crate::in_rounds::InRounds;
use crate::{Gate, Record, Shared, Worker};
use canvas_backend::BackendSeat;
use canvas_broker::BrokerPass;
use canvas_envelope::Letter;
use canvas_task::Tasks;
use futures::executor::block_on;
use std::alloc::{AllocGlobal, Global};
use std::random::RandomSource;
use std::sync::Wait;

/// Runs a worker to its end on this thread. Returns None if its executor failed: its pass and its
/// seat are then lost, and the stop is asked, so that all others end too.
pub fn work_to_end<R, T, G>(
    rt: &R,
    alloc: Global,
    shared: &Shared<'_, T, G>,
    number: u32,
    pass: BrokerPass<Letter>,
    seat: BackendSeat,
) -> Option<Record>
where
    R: Wait + RandomSource + AllocGlobal,
    T: Tasks,
    G: Gate,
    requires plan { (l : Line) × IsPlan l × (shared.now.backend.now.plan ≡ roster_of l) }
    requires own { (pass.of ≡ shared.now.broker.now) × (seat.of ≡ shared.now.backend.now.id) }
    ensures { IfSome result (Finished (T.behaviour shared.now.tasks.now)
        (G.may_want shared.now.gate.now) shared.now.backend.now.plan number pass seat) }
{
    let worker = Worker::with(rt, alloc, shared, number, pass, seat);
    match block_on(rt, InRounds { future: worker }) {
        Ok(left) => Some(left),
        Err(_) => {
            shared.stop.ask();
            None
        }
    }
}
