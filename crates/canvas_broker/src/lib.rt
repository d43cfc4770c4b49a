//! The broker: a queue of envelopes that threads share, with one legal history of its calls, and
//! the same queue for one thread.
#![tactic(auto)]

mod batch;
mod broker;
mod item;
mod pass;
mod plain;
mod refused;
mod rule;
mod view;

pub use batch::Batch;
pub use broker::Broker;
pub use pass::BrokerPass;
pub use plain::PlainBroker;
pub use refused::Refused;
