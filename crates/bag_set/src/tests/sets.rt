//! Sets over ranks, and a set by itself beside a plain list.
use super::same;
use crate::set::{ERASE, INSERT};
use crate::{Set, set_erase, set_insert};
use comm_rank::Comm;
use shard_rig::{Call, Draws, LoneShard, PlainShard, Ranks, RigFault};
use std::alloc::{AllocError, Global};
use std::process::Abort;
use std::test::*;
use world_core::Limits;
use ygm_taps::QuietTap;

// A rank inserts an item of one byte, or erases it.
#[derive(Drop)]
struct Change {
    alloc: Global,
    erase: bool,
    item: u8,
}

impl Call<Set> for Change {
    fn make(&mut self, comm: &mut Comm<Set, QuietTap>) -> Result<(), RigFault> {
        if self.erase {
            set_erase(self.alloc, comm, &[self.item])?;
        } else {
            set_insert(self.alloc, comm, &[self.item])?;
        }
        Ok(())
    }
}

// The last of three ranks inserts `a`, erases it, and inserts `b`.
fn change_thrice(alloc: Global, ranks: &mut Ranks<Set>) -> Result<(), RigFault> {
    for _ in 0..3 {
        ranks.add(Set::new(alloc)?)?;
    }
    for (erase, item) in [(false, b'a'), (true, b'a'), (false, b'b')] {
        ranks.call(2, &mut Change { alloc, erase, item })?;
    }
    ranks.run_all()
}

#[test]
fn an_erased_item_is_gone(rt: HostRuntime) -> Result<(), Fail> {
    let alloc = rt.alloc();
    let mut ranks = Ranks::new(alloc, 3, Limits::FULL)?;
    change_thrice(alloc, &mut ranks)?;
    let mut found = Vec::new(alloc);
    for rank in 0..3 {
        let set = ranks.shard(rank)?;
        for k in 0..set.count_here() {
            found.extend_from_slice(set.item_here(k))?;
        }
    }
    same(&rt, found.as_slice(), b"b".as_slice());
    Ok(())
}

// The items of a set, each of one byte, in order.
#[derive(Drop)]
struct PlainSet {
    items: Vec<u8>,
}

impl PlainSet {
    // The place of the item, or the number of items.
    fn place(&self, item: u8) -> usize {
        let place = self.items.iter().position(|other| *other == item);
        place.unwrap_or(self.items.len())
    }
}

// The body of a letter with an item of one byte.
fn body_of(alloc: Global, item: u8) -> Result<Vec<u8>, AllocError> {
    Vec::from_slice(alloc, &[1, 0, 0, 0, item])
}

impl PlainShard<Set> for PlainSet {
    // One letter of three erases.
    fn next_letter(
        &mut self,
        alloc: Global,
        draws: &mut Draws,
    ) -> Result<(u8, Vec<u8>), AllocError> {
        let item = draws.below(8) as u8;
        let body = body_of(alloc, item)?;
        let place = self.place(item);
        let known = place < self.items.len();
        if draws.below(3) == 0 {
            if known {
                self.items.remove(place);
            }
            return Ok((ERASE, body));
        }
        if !known {
            self.items.push(item)?;
        }
        Ok((INSERT, body))
    }

    fn is_kept_by(&self, shard: &Set) -> bool {
        let mut kept = shard.count_here() == self.items.len() as u64;
        for (k, item) in self.items.iter().enumerate() {
            let here = (k as u64) < shard.count_here();
            kept = kept && here && shard.item_here(k as u64) == [*item].as_slice();
        }
        for item in 0..8 {
            kept = kept && shard.contains_here(&[item]) == self.items.contains(&item);
        }
        kept
    }
}

#[test]
fn a_set_is_what_a_plain_list_is(rt: HostRuntime) -> Result<(), Fail> {
    let alloc = rt.alloc();
    let mut lone = LoneShard::new(alloc, Set::new(alloc)?)?;
    let mut plain = PlainSet {
        items: Vec::new(alloc),
    };
    let found = lone.first_difference(&mut plain, 300, 7)?;
    same(&rt, found, None);
    Ok(())
}

// The bodies of `a`, of `b` and of the empty item.
const A: [u8; 5] = [1, 0, 0, 0, 97];

const B: [u8; 5] = [1, 0, 0, 0, 98];

const EMPTY: [u8; 4] = [0; 4];

// The number of items that are shown, and the first byte of each in order, where it has one.
fn shown(set: &Set) -> (usize, [u8; 4]) {
    let mut count = 0usize;
    let mut firsts = [0u8; 4];
    set.for_all(|item| {
        if count < 4 && !item.is_empty() {
            firsts[count] = item[0];
        }
        count = count.saturating_add(1);
    });
    (count, firsts)
}

// `b` is inserted again while it is there, and once more after it was erased.
fn inserted_again(rt: &impl Abort, set: &mut LoneShard<Set>) -> Result<(), Fail> {
    for body in [B.as_slice(), &EMPTY, &A, &B] {
        set.run(INSERT, body)?;
    }
    let before = shown(set.shard());
    set.run(ERASE, &B)?;
    set.run(INSERT, &B)?;
    same(
        rt,
        (before, shown(set.shard())),
        ((3, [b'b', 0, b'a', 0]), (3, [0, b'a', b'b', 0])),
    );
    Ok(())
}

#[test]
fn items_are_shown_in_the_order_of_insertion(rt: HostRuntime) -> Result<(), Fail> {
    let alloc = rt.alloc();
    inserted_again(&rt, &mut LoneShard::new(alloc, Set::new(alloc)?)?)
}

// A letter with a bag's tag and one without its last byte change nothing, and none sends others.
fn others(rt: &impl Abort, set: &mut LoneShard<Set>) -> Result<(), Fail> {
    let sent = [set.run(3, &B)?, set.run(2, &A)?, set.run(4, &B[..4])?];
    same(
        rt,
        (sent, shown(set.shard())),
        ([0, 0, 0], (1, [b'b', 0, 0, 0])),
    );
    Ok(())
}

#[test]
fn other_letters_change_nothing(rt: HostRuntime) -> Result<(), Fail> {
    let alloc = rt.alloc();
    others(&rt, &mut LoneShard::new(alloc, Set::new(alloc)?)?)
}
