//! Where a batch keeps its bytes.
ghost use Rattle.std.specs.Prelude.{◌≡◌, [], IfOk, OnOk, OnErr};
ghost use Rattle.msg_codec.specs.Kept.{LetterAppended};
ghost use Rattle.msg_codec.specs.Letter.{letter_of};
ghost use Rattle.msg_codec.specs.Placed.{Fits};
ghost use Rattle.msg_codec.specs.Spelling.{header};

use crate::LetterRef;
use crate::body::length_field;
use std::alloc::{AllocError, Global};
use std::marker::Model;

/// The bytes of a batch. Those of one control letter are kept in place, so that it takes no memory.
#[derive(Debug, Drop)]
pub(crate) struct Encoding {
    kept: Kept,
}

#[derive(Debug, Drop)]
enum Kept {
    InMemory(Vec<u8>),
    InPlace(Global, [u8; 37]),
}

impl Model for Encoding {
    ghost use Rattle.std.specs.Prelude.{ℕ, List};
    ghost use Rattle.msg_codec.specs.Kept.{kept_bytes};

    ghost Value = { List ℕ };

    ghost view = { λ encoding. kept_bytes encoding.kept };
}

/// The header of a letter.
fn header_of(letter: &LetterRef<'_>) -> [u8; 13]
    ensures header { result ≡ header (letter_of letter.now) }
    ensures fits { Fits (letter_of letter.now) }
{
    let to = letter.to.to_le_bytes();
    let from = letter.from.to_le_bytes();
    let len = length_field(letter.body);
    [
        to[0], to[1], to[2], to[3], from[0], from[1], from[2], from[3], letter.tag, len[0], len[1],
        len[2], len[3],
    ]
}

/// Appends the letter's encoding, or nothing if out of memory.
fn append(bytes: &mut Vec<u8>, letter: &LetterRef<'_>) -> Result<(), AllocError>
    ensures ok { OnOk result (LetterAppended bytes.old.items bytes.new.items (letter_of letter.now)) }
    ensures err { OnErr result (bytes.new.items ≡ bytes.old.items) }
{
    bytes.reserve(letter.spelled_len())?;
    bytes.extend_from_slice(&header_of(letter))?;
    bytes.extend_from_slice(letter.body)?;
    Ok(())
}

/// The bytes in memory, followed by the letter's encoding.
fn appended(alloc: Global, bytes: [u8; 37], letter: &LetterRef<'_>) -> Result<Vec<u8>, AllocError>
    ensures { IfOk result (λ all. LetterAppended bytes all.items (letter_of letter.now)) }
{
    let mut all = Vec::from_slice(alloc, &bytes)?;
    append(&mut all, letter)?;
    Ok(all)
}

/// The bytes in memory, which has room for so many more.
fn with_room(alloc: Global, bytes: [u8; 37], more: usize) -> Result<Vec<u8>, AllocError>
    ensures { IfOk result (λ all. all.items ≡ bytes) }
{
    let mut all = Vec::from_slice(alloc, &bytes)?;
    all.reserve(more)?;
    Ok(all)
}

impl Encoding {
    /// No bytes. It takes no memory.
    pub(crate) fn empty(alloc: Global) -> Encoding
        ensures { result ≡ [] }
    {
        Encoding {
            kept: Kept::InMemory(Vec::new(alloc)),
        }
    }

    /// These bytes, kept in place. It takes no memory.
    pub(crate) fn in_place(alloc: Global, bytes: [u8; 37]) -> Encoding
        ensures { result ≡ bytes }
    {
        Encoding {
            kept: Kept::InPlace(alloc, bytes),
        }
    }

    /// Appends the letter's encoding, or nothing if out of memory.
    pub(crate) fn append(&mut self, letter: &LetterRef<'_>) -> Result<(), AllocError>
        ensures ok { OnOk result (LetterAppended self.old self.new (letter_of letter.now)) }
        ensures err { OnErr result (self.new ≡ self.old) }
    {
        match self.kept {
            Kept::InMemory(ref mut bytes) => append(bytes, letter),
            Kept::InPlace(alloc, bytes) => {
                let all = appended(alloc, bytes, letter)?;
                self.kept = Kept::InMemory(all);
                Ok(())
            }
        }
    }

    /// Reserves memory for this many bytes more.
    pub(crate) fn reserve(&mut self, bytes: usize) -> Result<(), AllocError>
        ensures { self.new ≡ self.old }
    {
        match self.kept {
            Kept::InMemory(ref mut kept) => kept.reserve(bytes),
            Kept::InPlace(alloc, kept) => {
                let all = with_room(alloc, kept, bytes)?;
                self.kept = Kept::InMemory(all);
                Ok(())
            }
        }
    }

    /// A copy of the bytes.
    pub(crate) fn copy(&self, alloc: Global) -> Result<Encoding, AllocError>
        ensures { IfOk result (λ encoding. encoding ≡ self.now) }
    {
        match &self.kept {
            Kept::InMemory(bytes) => Ok(Encoding {
                kept: Kept::InMemory(Vec::from_slice(alloc, bytes)?),
            }),
            Kept::InPlace(_, bytes) => Ok(Encoding::in_place(alloc, *bytes)),
        }
    }

    /// The bytes.
    pub(crate) fn as_slice(&self) -> &[u8]
        ensures { result.now ≡ self.now }
    {
        match &self.kept {
            Kept::InMemory(bytes) => bytes.as_slice(),
            Kept::InPlace(_, bytes) => bytes.as_slice(),
        }
    }
}
