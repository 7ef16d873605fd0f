//! What a rank keeps of a set.
ghost use Rattle.std.specs.Prelude.{◌≡◌, ◌<◌, [], length, Some, IfOk, OnOk, OnErr, slice_get};
ghost use Rattle.std.specs.List.{FoldsTo};
ghost use Rattle.bag_set.specs.Sets as spec;
ghost use Rattle.bag_set.specs.Shown.{ShownTo};

use comm_rank::{Handler, Outgoing};
use indexmap::IndexSet;
use msg_codec::LetterRef;
use owner_send::read_item;
use std::alloc::{AllocError, Global};
use std::marker::Model;

/// The tag of a letter that inserts into a set.
pub(crate) const INSERT: u8 = 3;

/// The tag of a letter that erases from a set.
pub(crate) const ERASE: u8 = 4;

/// A rank's part of a set: each item once, in the order of insertion. An item that was erased and is inserted again goes
/// last.
#[derive(Drop)]
pub struct Set {
    alloc: Global,
    items: IndexSet<Vec<u8>>,
}

impl Model for Set {
    ghost use Rattle.std.specs.Prelude.{map};
    ghost use Rattle.bag_set.specs.Sets.{Items};

    ghost Value = { Items };

    ghost view = { λ set. map (λ item. item.items) set.items.keys };
}

impl Set {
    /// An empty one. It takes memory from `alloc` as items are inserted.
    pub fn new(alloc: Global) -> Result<Set, AllocError>
        ensures { IfOk result (λ set. set ≡ []) }
    {
        Ok(Set {
            alloc,
            items: IndexSet::new(alloc),
        })
    }

    // Inserts an item. Only a new one is copied.
    fn insert(&mut self, item: &[u8]) -> Result<(), AllocError>
        ensures ok { OnOk result (self.new ≡ spec.inserted item.now self.old) }
        ensures err { OnErr result (self.new ≡ self.old) }
    {
        if self.items.contains(item) {
            return Ok(());
        }
        let item = Vec::from_slice(self.alloc, item)?;
        self.items.insert(item)?;
        Ok(())
    }

    // Erases an item. The items after it move up, so this takes time in proportion to the number of items here.
    fn erase(&mut self, item: &[u8])
        ensures { self.new ≡ spec.erased item.now self.old }
    {
        self.items.shift_remove(item);
    }

    /// The number of items here.
    pub fn count_here(&self) -> u64
        ensures { result ≡ length self.now }
    {
        self.items.len() as u64
    }

    /// Whether the item is here.
    pub fn contains_here(&self, item: &[u8]) -> bool
        ensures { result ≡ spec.has self.now item.now }
    {
        self.items.contains(item)
    }

    /// The item at place `k`, from 0, in the order of insertion.
    pub fn item_here(&self, k: u64) -> &[u8]
        requires { k < length self.now }
        ensures { slice_get self.now k ≡ Some result.now }
    {
        self.items.get_index(k as usize).unwrap().as_slice()
    }

    /// Calls `f` at each item, in order.
    pub fn for_all<F: FnMut(&[u8])>(&self, mut f: F)
        requires { F.IsAlwaysCallable f }
        ensures { (last : F) × FoldsTo (ShownTo F.FnMut) f self.now last }
    {
        self.show_all(&mut f);
    }

    // Calls `f` at each item, in order, and at nothing else.
    fn show_all<F: FnMut(&[u8])>(&self, f: &mut F)
        requires { F.IsAlwaysCallable f.old }
        ensures { FoldsTo (ShownTo F.FnMut) f.old self.now f.new }
    {
        for k in 0..self.count_here() {
            let item = self.item_here(k);
            f(item);
        }
    }
}

impl Handler for Set {
    ghost use Rattle.std.specs.Prelude.{[], refl};
    ghost use Rattle.bag_set.specs.Sets.{set_apply};

    ghost apply = { set_apply };

    ghost start = { λ _. [] };

    fn run(
        &mut self,
        _here: u32,
        letter: LetterRef<'_>,
        _out: &mut Outgoing,
    ) -> Result<(), AllocError> {
        let Some(item) = read_item(letter.body) else {
            return Ok(());
        };
        match letter.tag {
            INSERT => self.insert(item)?,
            ERASE => self.erase(item),
            _ => {}
        }
        Ok(())
    }

    ghost keeps_start = { λ _ _ _ _. refl };
}
