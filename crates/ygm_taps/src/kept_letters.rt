//! A list of letters that grows, with the bytes of all bodies in one piece.
ghost use Rattle.std.specs.Prelude.{◌≡◌, ◌<◌, [], ◌∷◌, ◌++◌, Some, length, slice_get, OnOk, OnErr};
ghost use Rattle.ygm_taps.specs.Heard.{told_of};

use crate::Told;
use std::alloc::{AllocError, Global};
use std::marker::Model;

/// A letter without its body, and where that begins.
#[derive(Clone, Copy)]
struct Place {
    from: u32,
    tag: u8,
    start: usize,
    len: usize,
}

/// The letters, in the order in which they were pushed.
#[derive(Drop)]
pub(crate) struct KeptLetters {
    places: Vec<Place>,
    bytes: Vec<u8>,
}

impl Model for KeptLetters {
    ghost use Rattle.std.specs.Prelude.{All, List, map};
    ghost use Rattle.ygm_taps.specs.Heard.{RanLetter};
    ghost use Rattle.ygm_taps.specs.Places.{letter_in, IsWithin};

    ghost Value = { List RanLetter };

    ghost view = { λ kept. map (letter_in kept.bytes.items) kept.places.items };

    ghost invariant = { λ kept. All (IsWithin kept.bytes.items) kept.places.items };
}

impl KeptLetters {
    /// No letters. It takes no memory.
    pub fn new(alloc: Global) -> KeptLetters
        ensures { result ≡ [] }
    {
        KeptLetters {
            places: Vec::new(alloc),
            bytes: Vec::new(alloc),
        }
    }

    /// Puts a letter last. Out of memory, the letters are unchanged.
    pub fn push(&mut self, from: u32, tag: u8, body: &[u8]) -> Result<(), AllocError>
        ensures last { OnOk result (self.new ≡ self.old ++ record { from = from; tag = tag; body = body.now } ∷ []) }
        ensures unchanged { OnErr result (self.new ≡ self.old) }
    {
        let place = Place {
            from,
            tag,
            start: self.bytes.len(),
            len: body.len(),
        };
        self.places.reserve(1)?;
        self.bytes.extend_from_slice(body)?;
        self.places.push_reserved(place);
        Ok(())
    }

    /// The number of letters.
    pub fn count(&self) -> u64
        ensures { result ≡ length self.now }
    {
        self.places.len() as u64
    }

    /// The letter at place `k`, counted from 0, in constant time and without a copy.
    pub fn letter_at(&self, k: u64) -> Told<'_>
        requires { k < length self.now }
        ensures { slice_get self.now k ≡ Some (told_of result) }
    {
        let place = self.places[k as usize];
        Told {
            from: place.from,
            tag: place.tag,
            body: &self.bytes[place.start..place.start + place.len],
        }
    }
}
