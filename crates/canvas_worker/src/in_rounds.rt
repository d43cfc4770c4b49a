//! A future that is polled many times in a row.

ghost use Rattle.futures.specs.Poll.{OnPending, IfReady};
ghost use Rattle.futures.specs.Task.{Covers, Keeps};

use futures::Future;
use futures::task::{Context, Poll};

/// The number of polls in a row.
const ROUND: u32 = 32;

/// A future that polls another `ROUND` times in a row while that is pending, and then yields for
/// one more round, since an executor's own work between two polls is a part of what a light message
/// costs. It suits a future that yields and waits for no other task.
#[derive(Drop)]
pub(crate) struct InRounds<F> {
    pub future: F,
}

impl<F: Future> Future for InRounds<F> {
    type Output = F::Output;

    ghost can_poll = { λ r. F.can_poll r.future };

    ghost gives = { λ r. F.gives r.future };

    fn poll(&mut self, cx: &mut Context<'_>) -> Poll<F::Output> {
        for _ in 0..ROUND {
            if let Poll::Ready(output) = self.future.poll(cx) {
                return Poll::Ready(output);
            }
        }
        cx.yield_now()
    }
}
