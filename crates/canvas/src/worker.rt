//! What a run is made of: the queue, the table of results, and workers.

pub use canvas_backend::{Backend, BackendSeat, PlainBackend, Stored};
pub use canvas_broker::{Batch, Broker, BrokerPass, PlainBroker, Refused};
pub use canvas_worker::{Ask, Book, Core, InFlight, Record, Reply, Shared, Worker, work_to_end};
