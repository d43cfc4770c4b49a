//! Tests of runs and of refused memory. They are here so that no crate is proved a second time for
//! them.
//!
//! What a core answers is in its contract. So the tests are about threads, gates and stops, and
//! about refused memory, since a contract doesn't promise that memory is there.
#![tactic(auto)]

#[cfg(test)]
mod refused;
#[cfg(test)]
mod runs;
#[cfg(test)]
mod turns;
