//! What the tests of containers share: a shard by itself, which is compared with a plain list while letters run, and the
//! ranks of a world, which make calls and run all letters.
#![tactic(auto)]

mod draws;
mod fault;
mod lone_shard;
mod ranks;

pub use draws::Draws;
pub use fault::RigFault;
pub use lone_shard::{LoneShard, PlainShard};
pub use ranks::{Call, Ranks};

#[cfg(test)]
mod tests;
