//! What a poll returns, by the reason for which its rank waits.

use super::ranks::{Ranks, ranks_of, same};
use super::relay::{NOTE, Relay};
use crate::{Polled, Waiting};
use std::process::Abort;
use std::test::*;
use world_core::Limits;

// A poll of a rank returns this reason.
fn waits(rt: &impl Abort, ranks: &mut Ranks<Relay>, rank: u32, why: Waiting) -> Result<(), Fail> {
    same(rt, ranks.poll(rank)?, Polled::Waiting(why));
    Ok(())
}

fn nothing_sent(rt: &impl Abort, ranks: &mut Ranks<Relay>) -> Result<(), Fail> {
    ranks.enter_all()?;
    waits(rt, ranks, 0, Waiting::Count { rank: 0, round: 0 })?;
    waits(rt, ranks, 0, Waiting::Worked { took: 1 })?;
    waits(rt, ranks, 0, Waiting::Count { rank: 1, round: 0 })?;
    waits(rt, ranks, 1, Waiting::Total { round: 0 })
}

#[test]
fn rank_0_waits_for_counts_and_the_others_for_totals(rt: HostRuntime) -> Result<(), Fail> {
    nothing_sent(&rt, &mut ranks_of(rt.alloc(), 2, 4, Limits::FULL)?)
}

const ONE_ROUND: Limits = Limits {
    letters: 1,
    rounds: 1,
    batches: 8,
};

fn one_round(rt: &impl Abort, ranks: &mut Ranks<Relay>) -> Result<(), Fail> {
    ranks.enter_all()?;
    waits(rt, ranks, 0, Waiting::Count { rank: 0, round: 0 })?;
    waits(rt, ranks, 0, Waiting::Worked { took: 1 })?;
    waits(rt, ranks, 0, Waiting::Worked { took: 1 })?;
    waits(rt, ranks, 0, Waiting::Spent { round: 1 })?;
    waits(rt, ranks, 0, Waiting::Spent { round: 1 })
}

#[test]
fn a_rank_that_counted_all_its_rounds_waits_for_ever(rt: HostRuntime) -> Result<(), Fail> {
    one_round(&rt, &mut ranks_of(rt.alloc(), 1, 4, ONE_ROUND)?)
}

// Rank 1 counts once both of its letters are put, though the link to rank 0 has room all along.
fn held_letters(rt: &impl Abort, ranks: &mut Ranks<Relay>) -> Result<(), Fail> {
    ranks.send(1, 2, NOTE, b"ab")?;
    ranks.enter_all()?;
    waits(rt, ranks, 1, Waiting::Link { to: 2 })?;
    waits(rt, ranks, 1, Waiting::Link { to: 2 })?;
    same(rt, ranks.counts(1)?, 0);
    waits(rt, ranks, 2, Waiting::Worked { took: 1 })?;
    waits(rt, ranks, 1, Waiting::Total { round: 0 })?;
    same(rt, ranks.counts(1)?, 1);
    Ok(())
}

#[test]
fn a_rank_counts_only_once_it_holds_no_letter(rt: HostRuntime) -> Result<(), Fail> {
    held_letters(&rt, &mut ranks_of(rt.alloc(), 3, 1, Limits::FULL)?)
}

// Rank 1 puts two letters and its Count into a link that has room for one batch.
fn through_a_narrow_link(rt: &impl Abort, ranks: &mut Ranks<Relay>) -> Result<(), Fail> {
    ranks.send(1, 0, NOTE, b"ab")?;
    ranks.enter_all()?;
    waits(rt, ranks, 1, Waiting::Link { to: 0 })?;
    waits(rt, ranks, 0, Waiting::Worked { took: 1 })?;
    waits(rt, ranks, 1, Waiting::Link { to: 0 })?;
    same(rt, ranks.counts(1)?, 0);
    waits(rt, ranks, 0, Waiting::Worked { took: 2 })?;
    waits(rt, ranks, 1, Waiting::Total { round: 0 })?;
    same(rt, (ranks.counts(1)?, ranks.sums(1)?), (1, (2, 0)));
    Ok(())
}

#[test]
fn a_count_waits_for_room_in_its_link(rt: HostRuntime) -> Result<(), Fail> {
    through_a_narrow_link(&rt, &mut ranks_of(rt.alloc(), 2, 1, Limits::FULL)?)
}

// The link to rank 1 has room for one batch, a letter, so that the Total comes after it.
fn totals_held_up(rt: &impl Abort, ranks: &mut Ranks<Relay>) -> Result<(), Fail> {
    ranks.send(0, 1, NOTE, b"a")?;
    ranks.enter_all()?;
    waits(rt, ranks, 1, Waiting::Total { round: 0 })?;
    waits(rt, ranks, 0, Waiting::Worked { took: 1 })?;
    waits(rt, ranks, 0, Waiting::Worked { took: 1 })?;
    waits(rt, ranks, 0, Waiting::Link { to: 1 })?;
    waits(rt, ranks, 1, Waiting::Worked { took: 1 })?;
    waits(rt, ranks, 0, Waiting::Total { round: 0 })
}

#[test]
fn rank_0_waits_for_its_own_total_once_it_put_all(rt: HostRuntime) -> Result<(), Fail> {
    totals_held_up(&rt, &mut ranks_of(rt.alloc(), 2, 1, Limits::FULL)?)
}
