//! How an item and its count are encoded in the body of a letter that adds to a counting set.
ghost use Rattle.std.specs.Prelude.{◌≡◌, ◌≢◌, ◌<◌, ◌≤◌, ◌+◌, ◌^◌, ℕ, List, length, IsOk, IfOk, IfSome, IfNone};
ghost use Rattle.std.specs.Option.{option_map};
ghost use Rattle.msg_codec.specs.Limits.{max_body};
ghost use Rattle.msg_codec.specs.Reading.{IsReading, body_reading, number_reading, pair_reading};
ghost use Rattle.counting_set.specs.ItemCount.{item_count_of, spelled_item_count};

use msg_codec::{Body, IN_PLACE, WireFault, body_at, number_at};
use owner_send::key_body;
use std::alloc::{AllocError, Global};

/// The body that encodes a borrowed item and its count, as the pair of them is encoded. A short one is kept in
/// place, and takes no memory.
pub fn item_count_body(alloc: Global, item: &[u8], count: u64) -> Result<Body, AllocError>
    requires { length item.now + 12 ≤ max_body }
    ensures value { IfOk result (λ body. body ≡ spelled_item_count item.now count) }
    ensures in_place { length item.now + 12 ≤ IN_PLACE → IsOk result }
{
    let mut body = key_body(alloc, item, 8)?;
    body.append(&count.to_le_bytes())?;
    Ok(body)
}

// The item and the count that the bytes begin with, and the length of their encoding.
#[tactic(auto, unfolding(msg_codec::specs::Reading::pair_reading))]
fn item_count_at(from: &[u8]) -> Result<((&[u8], u64), usize), WireFault>
    ensures { IsReading (λ found. ((found.0.0.now, found.0.1), found.1)) result (pair_reading body_reading number_reading from.now) }
{
    let (item, len) = body_at(from)?;
    let (_, rest) = from.split_at(len);
    let (count, more) = number_at(rest)?;
    Ok(((item, count), len + more))
}

/// The item and the count that the whole body encodes, or `None`: the body may be too short, too long, or
/// start with a length above the limit.
#[tactic(auto, unfolding(crate::specs::ItemCount::item_count_of))]
pub fn read_item_count(body: &[u8]) -> Option<(&[u8], u64)>
    ensures found { IfSome result (λ found. body.now ≡ spelled_item_count found.0.now found.1) }
    ensures short { IfSome result (λ found. length found.0.now ≤ max_body) }
    ensures none { IfNone result ((item : List ℕ) (count : ℕ) → length item ≤ max_body → count < 2 ^ 64 → body.now ≢ spelled_item_count item count) }
    ensures exact { option_map (λ found. (found.0.now, found.1)) result ≡ item_count_of body.now }
{
    match item_count_at(body) {
        Ok((found, len)) if len == body.len() => Some(found),
        _ => None,
    }
}

#[cfg(test)]
mod tests;
