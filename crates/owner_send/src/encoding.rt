//! How an item, or the key of an entry, is encoded in the body of a letter.
ghost use Rattle.std.specs.Prelude.{◌≡◌, ◌≢◌, ◌≤◌, ◌+◌, ℕ, List, length, IsOk, IfOk, IfSome, IfNone};
ghost use Rattle.std.specs.Option.{option_map};
ghost use Rattle.msg_codec.specs.Limits.{max_body};
ghost use Rattle.msg_codec.specs.Spelling.{spelled_body};
ghost use Rattle.owner_send.specs.Item.{item_of, max_read};

use msg_codec::{Body, IN_PLACE, body_at, length_field};
use std::alloc::{AllocError, Global};

/// The greatest number of bytes of an item, or of a key with its value.
pub const MAX_ITEM: usize = 1_000_100;

/// The greatest number of bytes of a body that a shard reads.
pub(crate) const MAX_READ: usize = 1_000_200;

/// A body that begins with the key, encoded as its length and its bytes, with room for `more` bytes. A short one is kept
/// in place, and takes no memory.
pub fn key_body(alloc: Global, key: &[u8], more: usize) -> Result<Body, AllocError>
    requires { length key.now + more + 4 ≤ max_body }
    ensures value { IfOk result (λ body. body ≡ spelled_body key.now) }
    ensures in_place { length key.now + more + 4 ≤ IN_PLACE → IsOk result }
{
    let mut body = Body::with_capacity(alloc, 4 + key.len() + more)?;
    body.append(&length_field(key))?;
    body.append(key)?;
    Ok(body)
}

/// The item that the whole body encodes, or `None`: the body may be too short, too long, or start with a length above the
/// limit.
#[tactic(auto, unfolding(crate::specs::Item::item_of))]
pub fn read_item(body: &[u8]) -> Option<&[u8]>
    ensures found { IfSome result (λ item. body.now ≡ spelled_body item.now) }
    ensures none { IfNone result ((item : List ℕ) → length item + 4 ≤ max_read → body.now ≢ spelled_body item) }
    ensures exact { option_map (λ item. item.now) result ≡ item_of body.now }
{
    if body.len() > MAX_READ {
        return None;
    }
    match body_at(body) {
        Ok((item, len)) if len == body.len() => Some(item),
        _ => None,
    }
}
