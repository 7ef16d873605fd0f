//! A list of items that grows, with the bytes of all in one piece.
ghost use Rattle.std.specs.Prelude.{◌≡◌, ◌<◌, [], ◌∷◌, ◌++◌, Some, length, slice_get, OnOk, OnErr};

use std::alloc::{AllocError, Global};
use std::marker::Model;

/// Where an item begins, and its length.
#[derive(Clone, Copy)]
struct Place {
    start: usize,
    len: usize,
}

/// The items, in the order in which they were pushed.
#[derive(Drop)]
pub(crate) struct KeptItems {
    places: Vec<Place>,
    bytes: Vec<u8>,
}

impl Model for KeptItems {
    ghost use Rattle.std.specs.Prelude.{All, map};
    ghost use Rattle.bag_set.specs.Bags.{Items};
    ghost use Rattle.bag_set.specs.Places.{item_in, IsWithin};

    ghost Value = { Items };

    ghost view = { λ kept. map (item_in kept.bytes.items) kept.places.items };

    ghost invariant = { λ kept. All (IsWithin kept.bytes.items) kept.places.items };
}

impl KeptItems {
    /// No items. It takes no memory.
    pub fn new(alloc: Global) -> KeptItems
        ensures { result ≡ [] }
    {
        KeptItems {
            places: Vec::new(alloc),
            bytes: Vec::new(alloc),
        }
    }

    /// Puts an item last. Out of memory, the items are unchanged.
    pub fn push(&mut self, item: &[u8]) -> Result<(), AllocError>
        ensures last { OnOk result (self.new ≡ self.old ++ item.now ∷ []) }
        ensures unchanged { OnErr result (self.new ≡ self.old) }
    {
        let place = Place {
            start: self.bytes.len(),
            len: item.len(),
        };
        self.places.reserve(1)?;
        self.bytes.extend_from_slice(item)?;
        self.places.push_reserved(place);
        Ok(())
    }

    /// The number of items.
    pub fn count(&self) -> u64
        ensures { result ≡ length self.now }
    {
        self.places.len() as u64
    }

    /// The item at place `k`, counted from 0, in constant time and without a copy.
    pub fn item_at(&self, k: u64) -> &[u8]
        requires { k < length self.now }
        ensures { slice_get self.now k ≡ Some result.now }
    {
        let place = self.places[k as usize];
        &self.bytes[place.start..place.start + place.len]
    }
}
