//! The objects that the workers of a run share.

use crate::{InFlight, Stop};
use canvas_backend::Backend;
use canvas_broker::Broker;
use canvas_envelope::Letter;

/// The objects that the workers of a run share: its queue, its table of results, its tasks, its
/// gate, its stop and its count of envelopes in flight.
#[derive(Drop)]
pub struct Shared<'a, T, G> {
    pub broker: &'a Broker<Letter>,
    pub backend: &'a Backend,
    pub tasks: &'a T,
    pub gate: &'a G,
    /// Once it is asked, each worker ends.
    pub stop: &'a Stop,
    /// A worker that rests while the count is 0 ends.
    pub flight: &'a InFlight,
}
