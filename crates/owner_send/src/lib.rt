//! What the calls of containers share: how an item or a key is encoded in the body of a letter, and how that letter is sent
//! to the key's owner.
#![tactic(auto)]

mod encoding;
mod laws;
mod send;

pub use encoding::{MAX_ITEM, key_body, read_item};
pub use laws::{items_are_bodies, items_are_read_again, no_two_items_are_encoded_alike};
pub use send::send_to_owner;

#[cfg(test)]
mod tests;
