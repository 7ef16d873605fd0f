//! The jobs: for each the letters that a rank sends, what ranks keep, and the text that comes of it.
#![tactic(auto)]

mod fault;
mod kind;
mod shard;

pub use fault::InputFault;
pub use kind::JobKind;
pub use shard::JobShard;

#[cfg(test)]
mod tests;
