//! Values as they are encoded in the bodies of letters.
ghost use Rattle.std.specs.Prelude.{◌≡◌, ◌≢◌, ◌<◌, ◌≤◌, ◌+◌, ◌^◌, ℕ, List, [], ◌++◌, length, take, Result, Ok, Err, IfOk, OnOk, OnErr};
ghost use Rattle.std.specs.Int.{to_le_bytes};
ghost use Rattle.msg_codec.specs.declared.wire.WireFault.{WireFault};
ghost use Rattle.msg_codec.specs.declared.wire.WireFault.TheVariants.{Short, TooLong, NoMemory};
ghost use Rattle.msg_codec.specs.Bytes.{AreBytes};
ghost use Rattle.msg_codec.specs.Limits.{max_body};
ghost use Rattle.msg_codec.specs.Reading.{Gives, IsReading, number_reading, body_reading, pair_reading};
ghost use Rattle.msg_codec.specs.Spelling.{spelled_number, spelled_body};

use crate::body::{Body, MAX_BODY, length_field};
use std::alloc::{AllocError, Global};

/// Why no value could be read.
#[derive(Clone, Copy, Debug, PartialEq, Eq, thiserror::Error)]
pub enum WireFault {
    /// The bytes end before the value does.
    #[error("the bytes end before the value does")]
    Short,
    /// A length is above its limit, or a byte is out of its range.
    #[error("a length or a byte is out of range")]
    TooLong,
    /// Out of memory.
    #[error("out of memory")]
    NoMemory,
}

impl From<AllocError> for WireFault {
    ghost from_gives = { λ _ fault. fault ≡ NoMemory };

    fn from(_: AllocError) -> WireFault {
        WireFault::NoMemory
    }
}

/// A type whose values have one encoding each.
pub trait Wire: Drop {
    /// Which values are in the type's range.
    ghost in_range: { Self → Type 0 };

    /// The encoding of a value.
    ghost spelled: { Self → List ℕ };

    /// What decoding from the beginning of bytes gives: the value and the length of its encoding, or the first
    /// fault met.
    ghost reading: { List ℕ → Result (Self × ℕ) WireFault };

    /// Appends the encoding. Out of memory, it appends nothing.
    fn put(&self, into: &mut Vec<u8>) -> Result<(), AllocError>
        ensures appended { OnOk result (into.new.items ≡ into.old.items ++ spelled self.now) }
        ensures unchanged { OnErr result (into.new.items ≡ into.old.items) }
        ensures range { OnOk result (in_range self.now) };

    /// Returns the value that the bytes begin with, and the length of its encoding. Fields are decoded in
    /// order, and the fault is that of the first field that can't be decoded.
    fn get(alloc: Global, from: &[u8]) -> Result<(Self, usize), WireFault>
        ensures exact { Gives result (reading from.now) }
        ensures front { IfOk result (λ found. take found.1 from.now ≡ spelled found.0) }
        ensures within { IfOk result (λ found. found.1 ≤ length from.now) }
        ensures range { IfOk result (λ found. in_range found.0) };

    /// What was put is decoded again, whatever follows it.
    ghost read_again: { (value : Self) (rest : List ℕ) → in_range value → reading (spelled value ++ rest) ≡ Ok (value, length (spelled value)) };

    /// What is decoded was encoded so.
    ghost read_spelled: { (bytes : List ℕ) (value : Self) (len : ℕ) → AreBytes bytes → reading bytes ≡ Ok (value, len) → in_range value × (take len bytes ≡ spelled value) × (len ≤ length bytes) };

    /// Bytes that end before an encoding does are too short.
    ghost short_where_cut: { (value : Self) (front back : List ℕ) → in_range value → spelled value ≡ front ++ back → back ≢ [] → reading front ≡ Err Short };

    /// Bytes are too short only where more bytes would help.
    ghost short_wants_bytes: { (bytes : List ℕ) → AreBytes bytes → reading bytes ≡ Err Short → (more : List ℕ) × AreBytes more × (reading (bytes ++ more) ≢ Err Short) };

    /// A length above its limit stays refused, whatever follows.
    ghost too_long_stays: { (bytes more : List ℕ) → AreBytes bytes → reading bytes ≡ Err TooLong → reading (bytes ++ more) ≡ Err TooLong };
}

/// The number that the bytes begin with, and the length of its encoding; or `WireFault::Short`.
#[tactic(auto, unfolding(crate::specs::Reading::number_reading))]
pub fn number_at(from: &[u8]) -> Result<(u64, usize), WireFault>
    ensures exact { IsReading (λ found. found) result (number_reading from.now) }
    ensures front { IfOk result (λ found. take found.1 from.now ≡ spelled_number found.0) }
    ensures within { IfOk result (λ found. found.1 ≤ length from.now) }
{
    if from.len() < 8 {
        return Err(WireFault::Short);
    }
    let number = u64::from_le_bytes([
        from[0], from[1], from[2], from[3], from[4], from[5], from[6], from[7],
    ]);
    Ok((number, 8))
}

/// The bytes of the body that the bytes begin with, and the length of its encoding; or the first fault.
#[tactic(auto, unfolding(crate::specs::Reading::body_reading, crate::specs::Reading::stated))]
pub fn body_at(from: &[u8]) -> Result<(&[u8], usize), WireFault>
    ensures exact { IsReading (λ found. (found.0.now, found.1)) result (body_reading from.now) }
    ensures front { IfOk result (λ found. take found.1 from.now ≡ spelled_body found.0.now) }
    ensures within { IfOk result (λ found. found.1 ≤ length from.now) }
    ensures short { IfOk result (λ found. length found.0.now ≤ max_body) }
    ensures bytes { IfOk result (λ found. AreBytes found.0.now) }
{
    if from.len() < 4 {
        return Err(WireFault::Short);
    }
    let len = u32::from_le_bytes([from[0], from[1], from[2], from[3]]) as usize;
    if len > MAX_BODY {
        return Err(WireFault::TooLong);
    }
    let (_, rest) = from.split_at(4);
    if rest.len() < len {
        return Err(WireFault::Short);
    }
    let (body, _) = rest.split_at(len);
    Ok((body, 4 + len))
}

/// Appends the encoding of a body, or nothing if out of memory.
fn put_body(body: &[u8], into: &mut Vec<u8>) -> Result<(), AllocError>
    requires { length body.now ≤ max_body }
    ensures appended { OnOk result (into.new.items ≡ into.old.items ++ spelled_body body.now) }
    ensures unchanged { OnErr result (into.new.items ≡ into.old.items) }
    ensures bytes { AreBytes body.now }
{
    let field = length_field(body);
    into.reserve(4 + body.len())?;
    into.extend_from_slice(&field)?;
    into.extend_from_slice(body)?;
    Ok(())
}

impl Wire for u64 {
    ghost use Rattle.std.specs.Prelude.{◌<◌, ◌^◌};
    ghost use Rattle.msg_codec.specs.Reading.{number_reading};
    ghost use Rattle.msg_codec.specs.Spelling.{spelled_number};
    ghost use Rattle.msg_codec.specs.Laws.{number_again, number_spelled};
    ghost use Rattle.msg_codec.specs.Cut.{number_cut, number_long, number_wants};

    ghost in_range = { λ n. n < 2 ^ 64 };

    ghost spelled = { spelled_number };

    ghost reading = { number_reading };

    ghost read_again = { number_again };

    ghost read_spelled = { number_spelled };

    ghost short_where_cut = { λ n front back _ whole some. number_cut n front back whole some };

    ghost short_wants_bytes = { number_wants };

    ghost too_long_stays = { number_long };

    fn put(&self, into: &mut Vec<u8>) -> Result<(), AllocError> {
        into.extend_from_slice(&self.to_le_bytes())
    }

    fn get(_alloc: Global, from: &[u8]) -> Result<(u64, usize), WireFault> {
        number_at(from)
    }
}

impl Wire for Body {
    ghost use Rattle.std.specs.Prelude.{◌≤◌, length};
    ghost use Rattle.msg_codec.specs.Bytes.{AreBytes};
    ghost use Rattle.msg_codec.specs.Limits.{max_body};
    ghost use Rattle.msg_codec.specs.Reading.{body_reading};
    ghost use Rattle.msg_codec.specs.Spelling.{spelled_body};
    ghost use Rattle.msg_codec.specs.Laws.{body_again, body_spelled};
    ghost use Rattle.msg_codec.specs.Cut.{body_cut, body_long, body_wants};

    ghost in_range = { λ body. (length body ≤ max_body) × AreBytes body };

    ghost spelled = { spelled_body };

    ghost reading = { body_reading };

    ghost read_again = { λ body rest fits. body_again body rest fits.0 };

    ghost read_spelled = { body_spelled };

    ghost short_where_cut = { λ body front back fits whole some. body_cut body front back fits.0 whole some };

    ghost short_wants_bytes = { body_wants };

    ghost too_long_stays = { body_long };

    fn put(&self, into: &mut Vec<u8>) -> Result<(), AllocError> {
        put_body(self.as_slice(), into)
    }

    fn get(alloc: Global, from: &[u8]) -> Result<(Body, usize), WireFault> {
        let (body, len) = body_at(from)?;
        Ok((Body::of(alloc, body)?, len))
    }
}

impl<A: Wire, B: Wire> Wire for (A, B) {
    ghost use Rattle.std.specs.Prelude.{◌++◌};
    ghost use Rattle.msg_codec.specs.Reading.{pair_reading};
    ghost use Rattle.msg_codec.specs.Laws.{pair_again, pair_spelled};
    ghost use Rattle.msg_codec.specs.Cut.{pair_cut, pair_long, pair_wants};

    ghost in_range = { λ pair. A.in_range pair.0 × B.in_range pair.1 };

    ghost spelled = { λ pair. A.spelled pair.0 ++ B.spelled pair.1 };

    ghost reading = { pair_reading A.reading B.reading };

    ghost read_again = { λ pair rest fits. pair_again A.reading B.reading pair.0 pair.1 (A.spelled pair.0) (B.spelled pair.1) rest (A.read_again pair.0 (B.spelled pair.1 ++ rest) fits.0) (B.read_again pair.1 rest fits.1) };

    ghost read_spelled = { pair_spelled A.reading B.reading A.in_range B.in_range A.spelled B.spelled A.read_spelled B.read_spelled };

    ghost short_where_cut = { λ pair front back fits whole some. pair_cut A.reading B.reading pair.0 (A.spelled pair.0) (B.spelled pair.1) front back
        (λ x y. A.short_where_cut pair.0 x y fits.0) (λ x y. B.short_where_cut pair.1 x y fits.1) (λ rest. A.read_again pair.0 rest fits.0) whole some };

    ghost short_wants_bytes = { pair_wants A.reading B.reading A.in_range A.spelled A.short_wants_bytes B.short_wants_bytes A.read_again A.read_spelled };

    ghost too_long_stays = { pair_long A.reading B.reading A.in_range A.spelled A.too_long_stays B.too_long_stays A.read_again A.read_spelled };

    fn put(&self, into: &mut Vec<u8>) -> Result<(), AllocError> {
        let len = into.len();
        self.0.put(into)?;
        if let Err(full) = self.1.put(into) {
            into.truncate(len);
            return Err(full);
        }
        Ok(())
    }

    #[tactic(auto, unfolding(crate::specs::Reading::pair_reading))]
    fn get(alloc: Global, from: &[u8]) -> Result<((A, B), usize), WireFault> {
        let (first, len) = A::get(alloc, from)?;
        let (second, more) = B::get(alloc, &from[len..])?;
        Ok(((first, second), len + more))
    }
}
