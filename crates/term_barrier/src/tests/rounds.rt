//! The rounds at which ranks leave their barriers, and what ran before.
ghost use Rattle.std.specs.Prelude.{◌<◌};

use super::ranks::{Ranks, ranks_of, same, world_of};
use super::relay::{ASK, NOTE, PASS, Relay};
use std::process::Abort;
use std::sync::Wait;
use std::test::*;
use world_core::Limits;
use ygm_route::{Layout, Scheme};

fn alone<R: Abort + Wait>(rt: &R, ranks: &mut Ranks<Relay>) -> Result<(), Fail> {
    let first = ranks.pass(rt, 0)?;
    let second = ranks.pass(rt, 0)?;
    same(rt, (first, second), ((0, 1), (1, 3)));
    Ok(())
}

#[test]
fn a_rank_alone_leaves_its_barriers_at_rounds_1_and_3(rt: HostRuntime) -> Result<(), Fail> {
    alone(&rt, &mut ranks_of(rt.alloc(), 1, 4, Limits::FULL)?)
}

// Two ranks leave a barrier at the same round.
fn both_leave(
    rt: &impl Abort,
    ranks: &mut Ranks<Relay>,
    barrier: u64,
    round: u64,
) -> Result<(), Fail> {
    let left = ranks.leave_all()?;
    same(
        rt,
        left.as_slice(),
        [(barrier, round), (barrier, round)].as_slice(),
    );
    Ok(())
}

fn nothing_sent(rt: &impl Abort, ranks: &mut Ranks<Relay>) -> Result<(), Fail> {
    ranks.enter_all()?;
    both_leave(rt, ranks, 0, 1)
}

#[test]
fn ranks_that_sent_nothing_leave_barrier_0_at_round_1(rt: HostRuntime) -> Result<(), Fail> {
    nothing_sent(&rt, &mut ranks_of(rt.alloc(), 2, 4, Limits::FULL)?)
}

// Letters both ways, and one that a rank sends itself.
fn send_crosswise(ranks: &mut Ranks<Relay>) -> Result<(), Fail> {
    ranks.send(0, 1, NOTE, b"ab")?;
    ranks.send(0, 0, NOTE, b"c")?;
    ranks.send(1, 0, NOTE, b"xy")
}

fn all_have_run(rt: &impl Abort, ranks: &Ranks<Relay>) -> Result<(), Fail> {
    same(
        rt,
        (ranks.seen(0)?, ranks.seen(1)?),
        (b"cxy".as_slice(), b"ab".as_slice()),
    );
    same(rt, (ranks.sums(0)?, ranks.sums(1)?), ((3, 3), (2, 2)));
    Ok(())
}

// All letters run in turns before the barrier.
fn run_before(rt: &impl Abort, ranks: &mut Ranks<Relay>) -> Result<(), Fail> {
    send_crosswise(ranks)?;
    for _ in 0..3 {
        ranks.turn(0)?;
        ranks.turn(1)?;
    }
    all_have_run(rt, ranks)?;
    ranks.enter_all()?;
    both_leave(rt, ranks, 0, 1)
}

#[test]
fn a_barrier_ends_at_round_1_where_all_that_was_sent_ran_before(
    rt: HostRuntime,
) -> Result<(), Fail> {
    run_before(&rt, &mut ranks_of(rt.alloc(), 2, 4, Limits::FULL)?)
}

// All letters are still held as both ranks enter.
fn run_inside(rt: &impl Abort, ranks: &mut Ranks<Relay>) -> Result<(), Fail> {
    send_crosswise(ranks)?;
    ranks.enter_all()?;
    both_leave(rt, ranks, 0, 2)?;
    all_have_run(rt, ranks)
}

#[test]
fn a_barrier_ends_after_letters_that_were_held_as_it_began(rt: HostRuntime) -> Result<(), Fail> {
    run_inside(&rt, &mut ranks_of(rt.alloc(), 2, 4, Limits::FULL)?)
}

// Rank 0 counts before it is asked, and rank 1 after the first of two answers. So round 0 has the sums 1 and 1 while
// the other answer is in its link, where the second poll after the question puts it.
fn agree_by_chance(rt: &impl Abort, ranks: &mut Ranks<Relay>) -> Result<(), Fail> {
    ranks.enter(0)?;
    ranks.poll(0)?;
    ranks.send(1, 0, ASK, b"q")?;
    ranks.turn(1)?;
    ranks.poll(0)?;
    ranks.poll(0)?;
    ranks.enter(1)?;
    ranks.poll(1)?;
    same(
        rt,
        (ranks.counts(0)?, ranks.counts(1)?, ranks.sums(1)?),
        (1, 1, (1, 1)),
    );
    both_leave(rt, ranks, 0, 2)?;
    same(rt, ranks.seen(1)?, b"q\0".as_slice());
    same(rt, ranks.rounds_ended()?.as_slice(), [2].as_slice());
    Ok(())
}

#[test]
fn sums_that_agree_while_a_letter_is_on_its_way_end_no_barrier(
    rt: HostRuntime,
) -> Result<(), Fail> {
    agree_by_chance(&rt, &mut ranks_of(rt.alloc(), 2, 4, Limits::FULL)?)
}

// Each of three ranks sends the next a letter that is passed on ten times. So each rank runs eleven, and sends as many.
fn pass_round(rt: &impl Abort, ranks: &mut Ranks<Relay>, barrier: u64) -> Result<(), Fail>
    requires { barrier < 3 }
{
    ranks.send(0, 1, PASS, &[10])?;
    ranks.send(1, 2, PASS, &[10])?;
    ranks.send(2, 0, PASS, &[10])?;
    ranks.enter_all()?;
    let left = ranks.leave_all()?;
    let ended = ranks.rounds_ended()?;
    let last = ended.last().copied().ok_or("a barrier ended")?;
    same(
        rt,
        left.as_slice(),
        [(barrier, last), (barrier, last), (barrier, last)].as_slice(),
    );
    let all = 11 * (barrier + 1);
    same(
        rt,
        (
            ended.len() as u64,
            ranks.sums(0)?,
            ranks.sums(1)?,
            ranks.sums(2)?,
        ),
        (barrier + 1, (all, all), (all, all), (all, all)),
    );
    Ok(())
}

fn three_barriers(rt: &impl Abort, ranks: &mut Ranks<Relay>) -> Result<(), Fail> {
    for barrier in 0..3 {
        pass_round(rt, ranks, barrier)?;
    }
    Ok(())
}

#[test]
fn each_barrier_ends_once_letters_were_passed_on_ten_times(rt: HostRuntime) -> Result<(), Fail> {
    three_barriers(&rt, &mut ranks_of(rt.alloc(), 3, 4, Limits::FULL)?)
}

// Ranks 0 and 2 are on two nodes, and send each other two letters. Each letter goes by ranks 1 and 3.
fn by_gateways(rt: &impl Abort, ranks: &mut Ranks<Relay>) -> Result<(), Fail> {
    ranks.send(0, 2, NOTE, b"ab")?;
    ranks.send(2, 0, NOTE, b"xy")?;
    ranks.enter_all()?;
    let left = ranks.leave_all()?;
    same(
        rt,
        (
            left.len(),
            ranks.rounds_ended()?.len(),
            ranks.seen(0)?,
            ranks.seen(2)?,
        ),
        (4, 1, b"xy".as_slice(), b"ab".as_slice()),
    );
    same(
        rt,
        (ranks.forwarded(1)?, ranks.forwarded(3)?, ranks.sums(1)?),
        (4, 4, (0, 0)),
    );
    Ok(())
}

#[test]
fn a_barrier_ends_once_forwarded_letters_ran(rt: HostRuntime) -> Result<(), Fail> {
    let layout = Layout::new(4, 2)?;
    let ranks = world_of(rt.alloc(), layout, Scheme::Nlnr, 4, Limits::FULL);
    by_gateways(&rt, &mut ranks?)
}
