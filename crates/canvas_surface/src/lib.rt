//! Tests of calls that run no canvas: tasks, signatures, plans, messages, rows, the queue and the
//! table of results; and of each public call of these. They don't wait for the engine.
//!
//! What a queue or a table answers on one thread is in its contract. So for these the tests are
//! about what threads share.
#![tactic(auto)]

#[cfg(test)]
mod alike;
#[cfg(test)]
mod backends;
#[cfg(test)]
mod composed;
#[cfg(test)]
mod embeds;
#[cfg(test)]
mod envelopes;
#[cfg(test)]
mod forged;
#[cfg(test)]
mod forged_tables;
#[cfg(test)]
mod missing_rows;
#[cfg(test)]
mod nested;
#[cfg(test)]
mod plans;
#[cfg(test)]
mod queues;
#[cfg(test)]
mod registries;
#[cfg(test)]
mod surface;
#[cfg(test)]
mod tables;
#[cfg(test)]
mod tasks;
#[cfg(test)]
mod writing;
