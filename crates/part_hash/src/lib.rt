//! Which rank a key belongs to: the hash of its bytes modulo the number of ranks.
#![tactic(auto)]

mod keys;
mod laws;

pub use keys::{fnv, owner_of_key};
pub use laws::{a_hash_grows_by_a_byte, keys_have_owners, the_published_values};

#[cfg(test)]
mod tests;
