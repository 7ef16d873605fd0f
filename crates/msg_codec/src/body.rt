//! Lists of bytes: a letter's body, and a text without a limit.
ghost use Rattle.std.specs.Prelude.{◌≡◌, ◌≤◌, ◌+◌, List, [], ◌++◌, ℕ, length, vec_len, IsOk, IfOk, OnOk, OnErr};
ghost use Rattle.std.specs.Int.{w32, to_le_bytes};
ghost use Rattle.msg_codec.specs.Bytes.{AreBytes};
ghost use Rattle.msg_codec.specs.Limits.{max_body};

use smallvec::SmallVec;
use std::alloc::{AllocError, Global};
use std::marker::Model;

/// The greatest number of bytes of a body.
pub const MAX_BODY: usize = 1_048_576;

/// How many bytes a body keeps in place, without memory of its own.
pub const IN_PLACE: usize = 96;

/// A letter's body: at most `MAX_BODY` bytes.
#[derive(Debug, Drop)]
pub struct Body {
    bytes: SmallVec<u8, IN_PLACE>,
}

impl Model for Body {
    ghost Value = { List ℕ };

    ghost view = { λ body. body.bytes.items };

    ghost invariant = { λ body. length body.bytes.items ≤ max_body };
}

impl Body {
    /// A copy of the bytes.
    pub fn of(alloc: Global, bytes: &[u8]) -> Result<Body, AllocError>
        requires { length bytes.now ≤ max_body }
        ensures value { IfOk result (λ body. body ≡ bytes.now) }
        ensures in_place { length bytes.now ≤ IN_PLACE → IsOk result }
    {
        Ok(Body {
            bytes: SmallVec::from_slice(alloc, bytes)?,
        })
    }

    /// The bytes themselves. A `Vec` with room for at most `IN_PLACE` moves into the body, and a larger one is kept.
    pub fn from_vec(bytes: Vec<u8>) -> Body
        requires { vec_len bytes ≤ max_body }
        ensures { result ≡ bytes.items }
    {
        Body {
            bytes: SmallVec::from_vec(bytes),
        }
    }

    /// No bytes, with room for `len` of them.
    pub fn with_capacity(alloc: Global, len: usize) -> Result<Body, AllocError>
        ensures empty { IfOk result (λ body. body ≡ []) }
        ensures in_place { len ≤ IN_PLACE → IsOk result }
    {
        Ok(Body {
            bytes: SmallVec::with_capacity(alloc, len)?,
        })
    }

    /// Appends the bytes, or nothing if out of memory.
    pub fn append(&mut self, bytes: &[u8]) -> Result<(), AllocError>
        requires { length self.old + length bytes.now ≤ max_body }
        ensures ok { OnOk result (self.new ≡ self.old ++ bytes.now) }
        ensures err { OnErr result (self.new ≡ self.old) }
        ensures in_place { length self.old + length bytes.now ≤ IN_PLACE → IsOk result }
    {
        // A capacity is never below `IN_PLACE`.
        let _capacity = self.bytes.capacity();
        self.bytes.extend_from_slice(bytes)
    }

    pub fn as_slice(&self) -> &[u8]
        ensures value { result.now ≡ self.now }
        ensures bound { length self.now ≤ max_body }
    {
        self.bytes.as_slice()
    }

    /// The bytes as a `Vec`, which takes memory where they are in place.
    pub fn into_vec(self) -> Result<Vec<u8>, AllocError>
        ensures value { IfOk result (λ bytes. bytes.items ≡ self) }
        ensures bound { IfOk result (λ bytes. vec_len bytes ≤ max_body) }
    {
        Ok(self.bytes.into_vec()?)
    }
}

/// A list of bytes without a limit, as a text is.
#[derive(Debug, Drop)]
pub struct Body2 {
    bytes: Vec<u8>,
}

impl Model for Body2 {
    ghost Value = { List ℕ };

    ghost view = { λ body. body.bytes.items };
}

impl Body2 {
    /// The bytes themselves, without a copy.
    pub fn from_vec(bytes: Vec<u8>) -> Body2
        ensures { result ≡ bytes.items }
    {
        Body2 { bytes }
    }

    pub fn as_slice(&self) -> &[u8]
        ensures { result.now ≡ self.now }
    {
        self.bytes.as_slice()
    }

    pub fn into_vec(self) -> Vec<u8>
        ensures { result.items ≡ self }
    {
        self.bytes
    }
}

/// The encoded length of a body, which comes before its bytes.
pub fn length_field(body: &[u8]) -> [u8; 4]
    requires { length body.now ≤ max_body }
    ensures value { result ≡ to_le_bytes w32 (length body.now) }
    ensures bytes { AreBytes body.now }
{
    (body.len() as u32).to_le_bytes()
}
