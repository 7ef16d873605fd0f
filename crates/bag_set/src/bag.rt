//! What a rank keeps of a bag.
ghost use Rattle.std.specs.Prelude.{◌≡◌, ◌<◌, [], Some, length, IfOk, slice_get};
ghost use Rattle.std.specs.Option.{option_map};
ghost use Rattle.msg_codec.specs.Letter.{letter_of};
ghost use Rattle.bag_set.specs.Bags as spec;

use crate::kept_items::KeptItems;
use comm_rank::{Handler, Outgoing};
use msg_codec::LetterRef;
use owner_send::read_item;
use std::alloc::{AllocError, Global};
use std::marker::Model;

/// The tag of a letter that inserts into a bag.
pub(crate) const INSERT: u8 = 2;

/// A rank's part of a bag: the items that were inserted, in the order in which their letters ran here. Equal items are
/// kept as often as they were inserted.
#[derive(Drop)]
pub struct Bag {
    items: KeptItems,
}

impl Model for Bag {
    ghost use Rattle.bag_set.specs.Bags.{Items};

    ghost Value = { Items };

    ghost view = { λ bag. bag.items };
}

impl Bag {
    /// An empty one. It takes memory from `alloc` as items are inserted.
    pub fn new(alloc: Global) -> Result<Bag, AllocError>
        ensures { IfOk result (λ bag. bag ≡ []) }
    {
        Ok(Bag {
            items: KeptItems::new(alloc),
        })
    }

    /// The number of items here.
    pub fn count_here(&self) -> u64
        ensures { result ≡ length self.now }
    {
        self.items.count()
    }

    /// The item that was inserted here as number `k`, from 0.
    pub fn item(&self, k: u64) -> &[u8]
        requires { k < length self.now }
        ensures { slice_get self.now k ≡ Some result.now }
    {
        self.items.item_at(k)
    }
}

// The item that a letter inserts, if it is an insert.
fn item_inserted(letter: LetterRef<'_>) -> Option<&[u8]>
    ensures { option_map (λ item. item.now) result ≡ spec.inserts (letter_of letter.entry) }
{
    if letter.tag != INSERT {
        return None;
    }
    read_item(letter.body)
}

impl Handler for Bag {
    ghost use Rattle.std.specs.Prelude.{[], refl};
    ghost use Rattle.bag_set.specs.Bags.{bag_apply};

    ghost apply = { bag_apply };

    ghost start = { λ _. [] };

    fn run(
        &mut self,
        _here: u32,
        letter: LetterRef<'_>,
        _out: &mut Outgoing,
    ) -> Result<(), AllocError> {
        match item_inserted(letter) {
            Some(item) => self.items.push(item),
            None => Ok(()),
        }
    }

    ghost keeps_start = { λ _ _ _ _. refl };
}
