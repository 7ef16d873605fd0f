//! Bags over ranks, and a bag by itself.
use super::same;
use crate::{Bag, BagTurn, bag_insert};
use comm_rank::Comm;
use shard_rig::{Call, LoneShard, Ranks, RigFault};
use std::alloc::{AllocError, Global};
use std::process::Abort;
use std::test::*;
use world_core::Limits;
use ygm_taps::QuietTap;

// A rank inserts its items, each of one byte, one after another.
#[derive(Drop)]
struct Insert {
    alloc: Global,
    turn: BagTurn,
    item: u8,
}

impl Call<Bag> for Insert {
    fn make(&mut self, comm: &mut Comm<Bag, QuietTap>) -> Result<(), RigFault> {
        if self.turn.next >= comm.ranks() {
            return Err(RigFault::NoSuchRank);
        }
        bag_insert(self.alloc, comm, &mut self.turn, &[self.item])?;
        Ok(())
    }
}

fn three_bags(alloc: Global) -> Result<Ranks<Bag>, RigFault> {
    let mut ranks = Ranks::new(alloc, 3, Limits::FULL)?;
    for _ in 0..3 {
        ranks.add(Bag::new(alloc)?)?;
    }
    Ok(ranks)
}

// Rank 0 inserts four items, and rank 2 one.
fn insert_five(alloc: Global, ranks: &mut Ranks<Bag>) -> Result<(), RigFault> {
    let mut first = Insert {
        alloc,
        turn: BagTurn { next: 0 },
        item: b'a',
    };
    for item in [b'a', b'b', b'c', b'd'] {
        first.item = item;
        ranks.call(0, &mut first)?;
    }
    let mut last = Insert {
        alloc,
        turn: BagTurn { next: 2 },
        item: b'z',
    };
    ranks.call(2, &mut last)?;
    ranks.run_all()
}

#[test]
fn items_go_round_the_ranks(rt: HostRuntime) -> Result<(), Fail> {
    let alloc = rt.alloc();
    let mut ranks = three_bags(alloc)?;
    insert_five(alloc, &mut ranks)?;
    let mut counts = Vec::new(alloc);
    for rank in 0..3 {
        counts.push(ranks.shard(rank)?.count_here())?;
    }
    same(&rt, counts.as_slice(), [2, 1, 2].as_slice());
    Ok(())
}

// The bodies of `a`, of `b` and of the empty item.
const A: [u8; 5] = [1, 0, 0, 0, 97];

const B: [u8; 5] = [1, 0, 0, 0, 98];

const EMPTY: [u8; 4] = [0; 4];

// The item with that number, if there is one.
fn item(bag: &Bag, k: u64) -> Option<&[u8]> {
    if k < bag.count_here() {
        Some(bag.item(k))
    } else {
        None
    }
}

// The items of a bag, each with a comma after it.
fn joined(alloc: Global, bag: &Bag) -> Result<Vec<u8>, AllocError> {
    let mut all = Vec::new(alloc);
    for k in 0..bag.count_here() {
        all.extend_from_slice(bag.item(k))?;
        all.push(b',')?;
    }
    Ok(all)
}

fn insert_four(bag: &mut LoneShard<Bag>) -> Result<(), RigFault> {
    bag.run(2, &B)?;
    bag.run(2, &EMPTY)?;
    bag.run(2, &A)?;
    bag.run(2, &B)?;
    Ok(())
}

#[test]
fn equal_items_are_kept_in_the_order_of_their_letters(rt: HostRuntime) -> Result<(), Fail> {
    let alloc = rt.alloc();
    let mut bag = LoneShard::new(alloc, Bag::new(alloc)?)?;
    insert_four(&mut bag)?;
    same(
        &rt,
        joined(alloc, bag.shard())?.as_slice(),
        b"b,,a,b,".as_slice(),
    );
    Ok(())
}

// A letter with a set's tag and one without its last byte insert nothing, and none sends others.
fn others(rt: &impl Abort, bag: &mut LoneShard<Bag>) -> Result<(), Fail> {
    let sent = [bag.run(3, &A)?, bag.run(2, &A[..4])?, bag.run(2, &B)?];
    let bag = bag.shard();
    same(
        rt,
        (sent, item(bag, 0), bag.count_here()),
        ([0, 0, 0], Some(b"b".as_slice()), 1),
    );
    Ok(())
}

#[test]
fn other_letters_insert_nothing(rt: HostRuntime) -> Result<(), Fail> {
    let alloc = rt.alloc();
    others(&rt, &mut LoneShard::new(alloc, Bag::new(alloc)?)?)
}
