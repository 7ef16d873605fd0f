//! What a rank keeps of a counting set.
ghost use Rattle.std.specs.Prelude.{◌≡◌, ◌<◌, [], length, Some, IfOk, OnOk, OnErr, slice_get};
ghost use Rattle.std.specs.List.{FoldsTo};
ghost use Rattle.std.specs.Option.{option_map};
ghost use Rattle.msg_codec.specs.Letter.{letter_of};
ghost use Rattle.counting_set.specs.Counting as spec;
ghost use Rattle.counting_set.specs.Shown.{ShownTo};

use crate::item_count::read_item_count;
use comm_rank::{Handler, Outgoing};
use indexmap::IndexMap;
use msg_codec::LetterRef;
use std::alloc::{AllocError, Global};
use std::marker::Model;

/// The greatest number of bytes of an item.
pub const MAX_ITEM: usize = 1_000_100;

/// The tag of a letter that adds to a counting set.
pub(crate) const ADD: u8 = 1;

/// The greatest number of bytes of the body of such a letter.
const MAX_ADD: usize = 1_000_200;

/// A rank's part of a counting set: items with their counts, in the order in which they were first added.
/// A count stays at the largest value of its type.
#[derive(Drop)]
pub struct Counting {
    alloc: Global,
    counts: IndexMap<Vec<u8>, u64>,
}

impl Model for Counting {
    ghost use Rattle.std.specs.Prelude.{map};
    ghost use Rattle.counting_set.specs.Counting.{Counts};

    ghost Value = { Counts };

    ghost view = { λ counting. map (λ e. (e.0.items, e.1)) counting.counts.entries };
}

impl Counting {
    /// An empty one. It takes memory from `alloc` as items are added.
    pub fn new(alloc: Global) -> Result<Counting, AllocError>
        ensures { IfOk result (λ counting. counting ≡ []) }
    {
        Ok(Counting {
            alloc,
            counts: IndexMap::new(alloc),
        })
    }

    // Adds this many of an item. Only a new item is copied.
    fn add(&mut self, item: &[u8], count: u64) -> Result<(), AllocError>
        ensures ok { OnOk result (self.new ≡ spec.added item.now count self.old) }
        ensures err { OnErr result (self.new ≡ self.old) }
    {
        if let Some(held) = self.counts.get_mut(item) {
            *held = held.saturating_add(count);
            return Ok(());
        }
        let key = Vec::from_slice(self.alloc, item)?;
        self.counts.insert(key, count)?;
        Ok(())
    }

    /// The count of the item, or 0 if it isn't there.
    pub fn count_here(&self, item: &[u8]) -> u64
        ensures { result ≡ spec.count_in self.now item.now }
    {
        self.counts.get(item).copied().unwrap_or(0)
    }

    /// The number of distinct items.
    pub fn len_here(&self) -> u64
        ensures { result ≡ length self.now }
    {
        self.counts.len() as u64
    }

    /// The item that was added as number `k`, from 0, and its count.
    pub fn entry_here(&self, k: u64) -> (&[u8], u64)
        requires { k < length self.now }
        ensures { slice_get self.now k ≡ Some (result.0.now, result.1) }
    {
        let (item, count) = self.counts.get_index(k as usize).unwrap();
        (item.as_slice(), *count)
    }

    /// Calls `f` at each item and its count, in order.
    pub fn for_all<F: FnMut(&[u8], u64)>(&self, mut f: F)
        requires { F.IsAlwaysCallable f }
        ensures { (last : F) × FoldsTo (ShownTo F.FnMut) f self.now last }
    {
        self.show_all(&mut f);
    }

    // Calls `f` at each item and its count, in order, and at nothing else.
    fn show_all<F: FnMut(&[u8], u64)>(&self, f: &mut F)
        requires { F.IsAlwaysCallable f.old }
        ensures { FoldsTo (ShownTo F.FnMut) f.old self.now f.new }
    {
        for k in 0..self.len_here() {
            let (item, count) = self.entry_here(k);
            f(item, count);
        }
    }
}

// The item and the count that a letter adds, if it is an add.
fn item_added(letter: LetterRef<'_>) -> Option<(&[u8], u64)>
    ensures { option_map (λ found. (found.0.now, found.1)) result ≡ spec.adds (letter_of letter.entry) }
{
    if letter.tag != ADD || letter.body.len() > MAX_ADD {
        return None;
    }
    read_item_count(letter.body)
}

impl Handler for Counting {
    ghost use Rattle.std.specs.Prelude.{[], refl};
    ghost use Rattle.counting_set.specs.Counting.{counting_apply};

    ghost apply = { counting_apply };

    ghost start = { λ _. [] };

    fn run(
        &mut self,
        _here: u32,
        letter: LetterRef<'_>,
        _out: &mut Outgoing,
    ) -> Result<(), AllocError> {
        match item_added(letter) {
            Some((item, count)) => self.add(item, count),
            None => Ok(()),
        }
    }

    ghost keeps_start = { λ _ _ _ _. refl };
}
