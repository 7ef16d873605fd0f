//! Barriers that end once nothing is in transit. They part what ranks send each other into phases.
#![tactic(auto)]

mod barrier;
pub mod carried_laws;
mod heard;
pub mod laws;
mod poll;
pub mod poll_laws;
mod polled;
pub mod put_laws;
mod rounds;
pub mod run_laws;
#[cfg(test)]
mod tests;

pub use barrier::Barrier;
pub use polled::{Polled, Waiting};
