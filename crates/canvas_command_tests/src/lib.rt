//! Tests of the program by calls: readers and refusals that no run of it meets, and tasks that the
//! caller passes; and the public calls that run a canvas. What the program prints is tested in
//! `tests/program`.
#![tactic(auto)]

#[cfg(test)]
mod called;
#[cfg(test)]
mod early;
#[cfg(test)]
mod inputs;
#[cfg(test)]
mod own_tasks;
#[cfg(test)]
mod program;
#[cfg(test)]
mod refusals;
#[cfg(test)]
mod surface;
