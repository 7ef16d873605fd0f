ghost use Rattle.std.specs.Prelude.{◌≡◌, ◌≤◌, ◌<◌, length, IfOk};
ghost use Rattle.msg_codec.specs.Limits.{max_body};

use super::*;
use comm_rank::{Comm, Handler, Outgoing};
use msg_codec::LetterRef;
use shard_rig::{Call, Ranks, RigFault};
use std::alloc::{AllocError, Global};
use std::fmt::Debug;
use std::process::Abort;
use std::test::*;
use world_core::Limits;
use ygm_taps::QuietTap;

// A value in a box. Its owner drops it by one call, whatever it holds.
fn boxed<T: Drop>(alloc: Global, value: T) -> Result<Box<T>, Fail>
    ensures { IfOk result (λ boxed. boxed.value ≡ value) }
{
    Ok(
        Box::new(alloc, value)
            .ok()
            .ok_or("there is memory for a box")?,
    )
}

// Fails the test unless both are equal. The macro would be proved anew wherever it stands.
fn same<T: PartialEq + Debug + Drop>(rt: &impl Abort, found: T, wanted: T) {
    assert_eq!(rt; found, wanted);
}

// An empty set.
fn empty(alloc: Global) -> Result<Box<Counting>, Fail> {
    boxed(alloc, Counting::new(alloc)?)
}

// Runs an add of so many of an item.
fn add(alloc: Global, counting: &mut Counting, item: &[u8], count: u64) -> Result<(), Fail> {
    if item.len() > 100 {
        return Err("an item of a test is short".into());
    }
    let body = item_count_body(alloc, item, count)?;
    run(alloc, counting, 1, body.as_slice())?;
    Ok(())
}

// Runs adds, in order.
fn add_all(alloc: Global, counting: &mut Counting, items: &[(&[u8], u64)]) -> Result<(), Fail> {
    for (item, count) in items {
        add(alloc, counting, item, *count)?;
    }
    Ok(())
}

// Runs a letter, and returns how many letters the handler sent then.
fn run(alloc: Global, counting: &mut Counting, tag: u8, body: &[u8]) -> Result<u64, AllocError>
    requires { length body.now ≤ max_body }
{
    let letter = LetterRef {
        to: 0,
        from: 0,
        tag,
        body,
    };
    let mut out = Outgoing::new(alloc, 1);
    counting.run(0, letter, &mut out)?;
    Ok(out.count())
}

// The entry with that number, if there is one.
fn entry(counting: &Counting, k: u64) -> Option<(&[u8], u64)> {
    if k < counting.len_here() {
        Some(counting.entry_here(k))
    } else {
        None
    }
}

// Two of `ab`, one of `a`, five of the empty item, and three of `ab` more.
fn add_some(alloc: Global, counting: &mut Counting) -> Result<(), Fail> {
    let items: [(&[u8], u64); 4] = [(b"ab", 2), (b"a", 1), (b"", 5), (b"ab", 3)];
    add_all(alloc, counting, &items)
}

fn in_order(rt: &impl Abort, alloc: Global, counting: &mut Counting) -> Result<(), Fail> {
    add_some(alloc, counting)?;
    let first = (entry(counting, 0), entry(counting, 1));
    let last = (entry(counting, 2), entry(counting, 3));
    same(
        rt,
        (first, last),
        (
            (Some((b"ab".as_slice(), 5)), Some((b"a".as_slice(), 1))),
            (Some((b"".as_slice(), 5)), None),
        ),
    );
    Ok(())
}

#[test]
fn items_stand_in_the_order_of_their_first_adds(rt: HostRuntime) -> Result<(), Fail> {
    in_order(&rt, rt.alloc(), &mut *empty(rt.alloc())?)
}

fn apart(rt: &impl Abort, alloc: Global, counting: &mut Counting) -> Result<(), Fail> {
    add_some(alloc, counting)?;
    let counts = [
        counting.count_here(b"ab"),
        counting.count_here(b"a"),
        counting.count_here(b""),
        counting.count_here(b"abc"),
    ];
    same(rt, counts, [5, 1, 5, 0]);
    Ok(())
}

#[test]
fn an_item_that_begins_another_is_apart(rt: HostRuntime) -> Result<(), Fail> {
    apart(&rt, rt.alloc(), &mut *empty(rt.alloc())?)
}

// The number of calls, and the sum of the counts for each length of an item, from 0 to 2.
fn shown_to(counting: &Counting) -> (u64, [u64; 3]) {
    let mut calls = 0u64;
    let mut sums = [0u64; 3];
    counting.for_all(|item, count| {
        calls = calls.saturating_add(1);
        if item.len() < 3 {
            sums[item.len()] = sums[item.len()].saturating_add(count);
        }
    });
    (calls, sums)
}

fn shown_once(rt: &impl Abort, alloc: Global, counting: &mut Counting) -> Result<(), Fail> {
    add_some(alloc, counting)?;
    same(rt, shown_to(counting), (3, [5, 1, 5]));
    Ok(())
}

#[test]
fn each_item_is_shown_once(rt: HostRuntime) -> Result<(), Fail> {
    shown_once(&rt, rt.alloc(), &mut *empty(rt.alloc())?)
}

fn at_the_most(rt: &impl Abort, alloc: Global, counting: &mut Counting) -> Result<(), Fail> {
    add(alloc, counting, b"x", u64::MAX - 1)?;
    add(alloc, counting, b"x", 3)?;
    same(rt, counting.count_here(b"x"), u64::MAX);
    Ok(())
}

#[test]
fn a_count_stays_at_the_largest_value_of_its_type(rt: HostRuntime) -> Result<(), Fail> {
    at_the_most(&rt, rt.alloc(), &mut *empty(rt.alloc())?)
}

// An add of one `x`.
const X_ONCE: [u8; 13] = [1, 0, 0, 0, 120, 1, 0, 0, 0, 0, 0, 0, 0];

// An add with another tag, one without its last byte and an empty one add nothing and send nothing. The add itself adds.
fn others(rt: &impl Abort, alloc: Global, counting: &mut Counting) -> Result<(), Fail> {
    let sent = [
        run(alloc, counting, 2, &X_ONCE)?,
        run(alloc, counting, 1, &X_ONCE[..12])?,
        run(alloc, counting, 1, b"")?,
    ];
    let len = counting.len_here();
    run(alloc, counting, 1, &X_ONCE)?;
    same(
        rt,
        (sent, len, counting.count_here(b"x")),
        ([0, 0, 0], 0, 1),
    );
    Ok(())
}

#[test]
fn other_letters_change_nothing(rt: HostRuntime) -> Result<(), Fail> {
    others(&rt, rt.alloc(), &mut *empty(rt.alloc())?)
}

// An item of so many bytes.
fn item_of(alloc: Global, len: usize) -> Result<Vec<u8>, AllocError>
    ensures { IfOk result (λ item. length item.items ≡ len) }
{
    let mut item = Vec::new(alloc);
    item.resize(len, b'x')?;
    Ok(item)
}

// How many items are there after an add of an item of so many bytes.
fn len_after(alloc: Global, counting: &mut Counting, len: usize) -> Result<u64, AllocError>
    requires { len ≤ 1000200 }
{
    let item = item_of(alloc, len)?;
    let body = item_count_body(alloc, &item, 1)?;
    run(alloc, counting, 1, body.as_slice())?;
    Ok(counting.len_here())
}

fn around_the_limit(rt: &impl Abort, alloc: Global, counting: &mut Counting) -> Result<(), Fail> {
    let over = len_after(alloc, counting, 1_000_189)?;
    let at = len_after(alloc, counting, 1_000_188)?;
    same(rt, (over, at), (0, 1));
    Ok(())
}

#[test]
fn a_body_over_the_limit_adds_nothing(rt: HostRuntime) -> Result<(), Fail> {
    around_the_limit(&rt, rt.alloc(), &mut *empty(rt.alloc())?)
}

// A rank inserts an item of one byte, or the empty one.
#[derive(Drop)]
struct Insert {
    alloc: Global,
    item: Option<u8>,
}

impl Call<Counting> for Insert {
    fn make(&mut self, comm: &mut Comm<Counting, QuietTap>) -> Result<(), RigFault> {
        match self.item {
            Some(byte) => count_insert(self.alloc, comm, &[byte])?,
            None => count_insert(self.alloc, comm, b"")?,
        }
        Ok(())
    }
}

fn ranks_of(alloc: Global, ranks: u32, limits: Limits) -> Result<Ranks<Counting>, RigFault> {
    let mut all = Ranks::new(alloc, ranks, limits)?;
    for _ in 0..ranks {
        all.add(Counting::new(alloc)?)?;
    }
    Ok(all)
}

// Rank 1 of two inserts `a` once and the empty item twice, and all letters run.
fn insert_three(alloc: Global, ranks: &mut Ranks<Counting>) -> Result<(), RigFault> {
    for item in [Some(b'a'), None, None] {
        ranks.call(1, &mut Insert { alloc, item })?;
    }
    ranks.run_all()
}

// What both ranks keep then.
fn at_the_owners(rt: &impl Abort, ranks: &Ranks<Counting>) -> Result<(), RigFault> {
    let near = ranks.shard(0)?;
    let far = ranks.shard(1)?;
    same(
        rt,
        (
            entry(near, 0),
            near.len_here(),
            entry(far, 0),
            far.len_here(),
        ),
        (Some((b"a".as_slice(), 1)), 1, Some((b"".as_slice(), 2)), 1),
    );
    Ok(())
}

#[test]
fn an_item_goes_to_its_owner(rt: HostRuntime) -> Result<(), Fail> {
    let mut ranks = ranks_of(rt.alloc(), 2, Limits::FULL)?;
    insert_three(rt.alloc(), &mut ranks)?;
    at_the_owners(&rt, &ranks)?;
    Ok(())
}

const ONE_LETTER: Limits = Limits {
    letters: 1,
    rounds: 1,
    batches: 1,
};

// The second of two inserts is refused because the rank has sent as many letters as it may.
fn second_refused(
    rt: &impl Abort,
    alloc: Global,
    ranks: &mut Ranks<Counting>,
) -> Result<(), RigFault> {
    let mut insert = Insert {
        alloc,
        item: Some(b'a'),
    };
    ranks.call(0, &mut insert)?;
    let full = matches!(ranks.call(0, &mut insert), Err(RigFault::CountFull));
    same(rt, (full, ranks.sent_count(0)?), (true, 1));
    Ok(())
}

#[test]
fn a_rank_at_its_limit_inserts_nothing(rt: HostRuntime) -> Result<(), Fail> {
    let mut ranks = ranks_of(rt.alloc(), 1, ONE_LETTER)?;
    second_refused(&rt, rt.alloc(), &mut ranks)?;
    Ok(())
}

#[test]
fn the_laws_can_be_cited() {
    a_new_item_goes_last();
    adds_of_one_are_counted();
    an_insert_adds_one();
    counting_sends_nothing();
    counts_are_sums();
    letters_add_up();
    no_item_stands_twice();
}

fn can_be_sent<T: Send>(value: T) -> T {
    value
}

#[test]
fn a_part_can_go_to_another_thread(rt: HostRuntime) -> Result<(), Fail> {
    let counting = can_be_sent(empty(rt.alloc())?);
    same(&rt, counting.len_here(), 0);
    Ok(())
}
