use super::{ASK, Echo, NOTE, Ranks, TWO_LETTERS, ranks_of, same};
use crate::{CommFault, Handler};
use std::process::Abort;
use std::test::*;
use world_core::Limits;

impl<H: Handler> Ranks<H> {
    // A turn of each rank. Returns whether one took or put a batch, or found a link full.
    fn round(&mut self) -> Result<bool, Fail> {
        let mut moved = false;
        for rank in 0..self.layout.ranks() {
            let turn = self.turn(rank)?;
            moved = moved || turn.took > 0 || turn.put > 0 || turn.full.is_some();
        }
        Ok(moved)
    }

    // Rounds, until one does nothing.
    fn run_all(&mut self) -> Result<(), Fail> {
        for _ in 0..100 {
            if !self.round()? {
                return Ok(());
            }
        }
        Err("all letters run within 100 rounds".into())
    }

    // how many batches a rank put and took
    fn log_len(&self, rank: u32) -> Result<usize, Fail> {
        if rank >= self.layout.ranks() {
            return Err("a rank of the world has a log".into());
        }
        Ok(self.links.world().log(rank).len())
    }
}

// Letters both ways, and one that a rank sends itself.
fn crossing(rt: &impl Abort, ranks: &mut Ranks<Echo>) -> Result<(), Fail> {
    ranks.send(0, 1, NOTE, b"ab")?;
    ranks.send(0, 0, NOTE, b"c")?;
    ranks.send(1, 0, NOTE, b"xy")?;
    ranks.run_all()?;
    same(
        rt,
        (ranks.state(0)?, ranks.state(1)?),
        ((b"cxy".as_slice(), 3, 3), (b"ab".as_slice(), 2, 2)),
    );
    Ok(())
}

#[test]
fn each_letter_runs_where_it_was_sent(rt: HostRuntime) -> Result<(), Fail> {
    crossing(&rt, &mut ranks_of(rt.alloc(), 2, 4, Limits::FULL)?)
}

// Five letters over a link that holds one batch.
fn through_a_narrow_link(
    rt: &impl Abort,
    ranks: &mut Ranks<Echo>,
    from: u32,
    to: u32,
) -> Result<(), Fail> {
    ranks.send(from, to, NOTE, b"abcde")?;
    ranks.run_all()?;
    same(
        rt,
        (ranks.link_len(from, to)?, ranks.state(to)?),
        (0, (b"abcde".as_slice(), 0, 5)),
    );
    Ok(())
}

#[test]
fn more_letters_run_than_a_link_holds(rt: HostRuntime) -> Result<(), Fail> {
    let mut ranks = ranks_of(rt.alloc(), 2, 1, Limits::FULL)?;
    through_a_narrow_link(&rt, &mut ranks, 0, 1)
}

// A lower rank takes before the sender has put.
#[test]
fn as_many_run_at_a_lower_rank(rt: HostRuntime) -> Result<(), Fail> {
    let mut ranks = ranks_of(rt.alloc(), 2, 1, Limits::FULL)?;
    through_a_narrow_link(&rt, &mut ranks, 1, 0)
}

fn idle(rt: &impl Abort, ranks: &mut Ranks<Echo>) -> Result<(), Fail> {
    let moved = ranks.round()?;
    let none: &[u8] = &[];
    same(
        rt,
        (
            moved,
            ranks.log_len(0)?,
            ranks.log_len(1)?,
            ranks.state(0)?,
            ranks.state(1)?,
        ),
        (false, 0, 0, (none, 0, 0), (none, 0, 0)),
    );
    Ok(())
}

#[test]
fn turns_with_nothing_sent_change_nothing(rt: HostRuntime) -> Result<(), Fail> {
    idle(&rt, &mut ranks_of(rt.alloc(), 2, 4, Limits::FULL)?)
}

// A rank that may send two letters is asked for four: only that rank is stopped.
fn asked_too_much(rt: &impl Abort, ranks: &mut Ranks<Echo>) -> Result<(), Fail> {
    ranks.send(0, 1, ASK, b"qr")?;
    ranks.turns(&[0, 1, 0])?;
    let full = matches!(ranks.try_turn(1)?, Err(CommFault::CountFull(_)));
    let (near, far) = (ranks.rank(0)?, ranks.rank(1)?);
    same(
        rt,
        (
            full,
            near.is_stopped(),
            far.is_stopped(),
            ranks.link_len(1, 0)?,
        ),
        (true, false, true, 0),
    );
    same(
        rt,
        (
            near.sent_count(),
            near.run_count(),
            far.sent_count(),
            far.run_count(),
        ),
        (2, 1, 2, 1),
    );
    Ok(())
}

#[test]
fn a_turn_that_fails_keeps_what_ran_before(rt: HostRuntime) -> Result<(), Fail> {
    asked_too_much(&rt, &mut ranks_of(rt.alloc(), 2, 4, TWO_LETTERS)?)
}
