//! What a rank holds for each next hop until a link takes it: letters gather in batches of limited size.
#![tactic(auto)]

mod buffers;
mod hop_queue;
pub mod laws;

pub use buffers::{Buffers, MAX_BUFFER, MIN_BUFFER};

#[cfg(test)]
mod tests;
