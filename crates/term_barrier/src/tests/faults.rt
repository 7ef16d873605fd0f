//! A barrier where a rank fails.

use super::ranks::{Ranks, ranks_of, same};
use super::relay::{NOTE, PASS, Relay};
use comm_rank::CommFault;
use std::process::Abort;
use std::test::*;
use world_core::Limits;

const ONE_LETTER: Limits = Limits {
    letters: 1,
    rounds: 8,
    batches: 64,
};

// Rank 1 has sent as many letters as it may, and is to pass one on.
fn sends_too_much(rt: &impl Abort, ranks: &mut Ranks<Relay>) -> Result<(), Fail> {
    ranks.send(0, 1, PASS, &[1])?;
    ranks.send(1, 2, NOTE, b"n")?;
    ranks.enter_all()?;
    ranks.poll(0)?;
    let full = matches!(ranks.try_poll(1)?, Err(CommFault::CountFull(_)));
    let near = matches!(ranks.try_poll(0)?, Err(CommFault::Stopped));
    let far = matches!(ranks.try_poll(2)?, Err(CommFault::Stopped));
    same(rt, (full, near, far), (true, true, true));
    same(
        rt,
        (
            ranks.is_stopped(0)?,
            ranks.is_stopped(1)?,
            ranks.is_stopped(2)?,
        ),
        (true, true, true),
    );
    Ok(())
}

#[test]
fn a_rank_that_may_send_no_more_stops_all(rt: HostRuntime) -> Result<(), Fail> {
    sends_too_much(&rt, &mut ranks_of(rt.alloc(), 3, 4, ONE_LETTER)?)
}
