//! The laws of the encoding of items. Each is the contract of a function that does nothing.
ghost use Rattle.std.specs.Prelude.{◌≡◌, ◌≤◌, ◌+◌, ℕ, List, Some, length};
ghost use Rattle.msg_codec.specs.Spelling.{spelled_body};
ghost use Rattle.owner_send.specs.Item.{item_of, max_item, max_read};

use crate::encoding::{MAX_ITEM, MAX_READ};
use msg_codec::{Body, Wire};

/// An item is encoded as the value of a body is, and the limits are these numbers.
pub fn items_are_bodies()
    ensures encoding { (item : List ℕ) → ⟦<Body as Wire>⟧.spelled item ≡ spelled_body item }
    ensures item { MAX_ITEM ≡ max_item }
    ensures read { MAX_READ ≡ max_read }
{}

/// An encoded item is decoded again.
pub fn items_are_read_again()
    ensures { (item : List ℕ) → length item + 4 ≤ max_read → item_of (spelled_body item) ≡ Some item }
{}

/// Different items have different encodings.
pub fn no_two_items_are_encoded_alike()
    ensures { (item other : List ℕ) → length item + 4 ≤ max_read → length other + 4 ≤ max_read →
        spelled_body item ≡ spelled_body other → item ≡ other }
{}
