//! Many letters in one piece.
ghost use Rattle.std.specs.Prelude.{All, ◌≡◌, ◌<◌, ◌≤◌, ◌+◌, [], ◌∷◌, ◌++◌, length, drop, slice_get, Some, IfOk, OnOk, OnErr};
ghost use Rattle.msg_codec.specs.Control.{letter_of_control};
ghost use Rattle.msg_codec.specs.Letter.{letter_of};
ghost use Rattle.msg_codec.specs.Limits.{max_body};
ghost use Rattle.msg_codec.specs.Placed.{stated_length, first_letter, Fits, IsHeld};
ghost use Rattle.msg_codec.specs.Spelling.{spelling};

use crate::control::encoded;
use crate::encoding::Encoding;
use crate::letter::HEADER_LEN;
use crate::{Control, LetterRef};
use std::alloc::{AllocError, Global};
use std::marker::Model;

/// A list of letters, kept as it is sent: the letters' encodings, one after another. The first begins at 0,
/// so that a batch of one letter keeps no start.
#[derive(Debug, Drop)]
pub struct Batch {
    bytes: Encoding,
    later_starts: Vec<usize>,
}

impl Model for Batch {
    ghost use Rattle.std.specs.Prelude.{List};
    ghost use Rattle.msg_codec.specs.declared.letter.Letter.{Letter};
    ghost use Rattle.msg_codec.specs.Placed.{letters_at, starts_of, IsBatch};

    ghost Value = { List Letter };

    ghost view = { λ batch. letters_at batch.bytes (starts_of batch.bytes batch.later_starts.items) };

    ghost invariant = { λ batch. IsBatch batch.bytes (starts_of batch.bytes batch.later_starts.items) };
}

/// The letter that the bytes begin with.
fn read_first(bytes: &[u8]) -> LetterRef<'_>
    requires short { stated_length bytes.now ≤ max_body }
    requires whole { 13 + stated_length bytes.now ≤ length bytes.now }
    ensures { letter_of result ≡ first_letter bytes.now }
{
    let to = u32::from_le_bytes([bytes[0], bytes[1], bytes[2], bytes[3]]);
    let from = u32::from_le_bytes([bytes[4], bytes[5], bytes[6], bytes[7]]);
    let len = u32::from_le_bytes([bytes[9], bytes[10], bytes[11], bytes[12]]);
    let (_, rest) = bytes.split_at(HEADER_LEN);
    let (body, _) = rest.split_at(len as usize);
    LetterRef {
        to,
        from,
        tag: bytes[8],
        body,
    }
}

/// The letter that begins at the place.
fn read_at(bytes: &[u8], place: usize) -> LetterRef<'_>
    requires { IsHeld bytes.now place }
    ensures { letter_of result ≡ first_letter (drop place bytes.now) }
{
    let (_, rest) = bytes.split_at(place);
    read_first(rest)
}

/// Where the letter at place `k` begins: the first at 0, which is not kept.
fn start_at(later_starts: &[usize], k: u64) -> usize
    requires { k < length (0 ∷ later_starts.now) }
    ensures { slice_get (0 ∷ later_starts.now) k ≡ Some result }
{
    if k == 0 {
        return 0;
    }
    later_starts[k as usize - 1]
}

impl Batch {
    /// A batch of no letters. It takes no memory.
    pub fn empty(alloc: Global) -> Batch
        ensures { result ≡ [] }
    {
        Batch {
            bytes: Encoding::empty(alloc),
            later_starts: Vec::new(alloc),
        }
    }

    /// The batch of one control letter. It takes no memory.
    pub fn of_control(alloc: Global, control: Control) -> Batch
        ensures { result ≡ letter_of_control control ∷ [] }
    {
        Batch {
            bytes: Encoding::in_place(alloc, encoded(control)),
            later_starts: Vec::new(alloc),
        }
    }

    /// Reserves memory for letters whose encodings have this many bytes more. The letters are unchanged.
    pub fn reserve(&mut self, bytes: usize) -> Result<(), AllocError>
        ensures { self.new ≡ self.old }
    {
        self.bytes.reserve(bytes)
    }

    /// Puts a letter last. Out of memory, the batch is unchanged.
    pub fn push(&mut self, letter: LetterRef<'_>) -> Result<(), AllocError>
        ensures last { OnOk result (self.new ≡ self.old ++ letter_of letter.entry ∷ []) }
        ensures unchanged { OnErr result (self.new ≡ self.old) }
    {
        let start = self.bytes.as_slice().len();
        if start == 0 {
            return self.bytes.append(&letter);
        }
        self.later_starts.reserve(1)?;
        self.bytes.append(&letter)?;
        self.later_starts.push_reserved(start);
        Ok(())
    }

    /// A batch of the same letters.
    pub(crate) fn copy(&self, alloc: Global) -> Result<Batch, AllocError>
        ensures { IfOk result (λ batch. batch ≡ self.now) }
    {
        Ok(Batch {
            bytes: self.bytes.copy(alloc)?,
            later_starts: Vec::from_slice(alloc, &self.later_starts)?,
        })
    }

    /// The number of its letters.
    pub fn count(&self) -> u64
        ensures { result ≡ length self.now }
    {
        if self.bytes.as_slice().is_empty() {
            return 0;
        }
        self.later_starts.len() as u64 + 1
    }

    /// The length of its encoding.
    pub fn bytes_len(&self) -> usize
        ensures { result ≡ length (spelling self.now) }
    {
        self.bytes.as_slice().len()
    }

    /// The letter at place `k`, counted from 0, in constant time and without a copy.
    pub fn letter_at(&self, k: u64) -> LetterRef<'_>
        requires { k < length self.now }
        ensures { slice_get self.now k ≡ Some (letter_of result) }
    {
        let start = start_at(&self.later_starts, k);
        read_at(self.bytes.as_slice(), start)
    }

    /// The encoding of its letters.
    pub fn as_bytes(&self) -> &[u8]
        ensures spelled { result.now ≡ spelling self.now }
        ensures fit { All Fits self.now }
    {
        self.bytes.as_slice()
    }
}
