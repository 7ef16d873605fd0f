//! Two nodes of two cores each: how letters reach the other node.
use super::{Echo, NOTE, Ranks, same, world_of};
use std::alloc::Global;
use std::process::Abort;
use std::test::*;
use world_core::Limits;
use ygm_route::{Layout, Scheme};

fn nodes_of(alloc: Global, scheme: Scheme) -> Result<Ranks<Echo>, Fail> {
    world_of(alloc, Layout::new(4, 2)?, scheme, 4, Limits::FULL)
}

// The ranks that a letter of rank 0 reaches, one after another, and the destination by its turns.
fn path_to(ranks: &mut Ranks<Echo>, to: u32) -> Result<Vec<u32>, Fail> {
    ranks.send(0, to, NOTE, b"a")?;
    let mut path = Vec::new(ranks.alloc);
    let mut at = 0;
    for _ in 0..6 {
        ranks.turn(at)?;
        let puts = ranks.put_by(at)?;
        if let Some((next, _)) = puts.first() {
            at = *next;
            path.push(at)?;
        }
    }
    Ok(path)
}

fn crosses(rt: &impl Abort, ranks: &mut Ranks<Echo>, to: u32, path: &[u32]) -> Result<(), Fail> {
    let found = path_to(ranks, to)?;
    same(
        rt,
        (found.as_slice(), ranks.state(to)?),
        (path, (b"a".as_slice(), 0, 1)),
    );
    Ok(())
}

#[test]
fn nr_crosses_over_the_senders_core(rt: HostRuntime) -> Result<(), Fail> {
    let mut ranks = nodes_of(rt.alloc(), Scheme::Nr)?;
    crosses(&rt, &mut ranks, 3, &[2, 3])
}

#[test]
fn nlnr_crosses_over_the_core_for_both_nodes(rt: HostRuntime) -> Result<(), Fail> {
    let mut ranks = nodes_of(rt.alloc(), Scheme::Nlnr)?;
    crosses(&rt, &mut ranks, 2, &[1, 3, 2])
}

// Rank 2 forwards the letters of rank 0, and sends one of its own before it has the last.
fn forwarded(rt: &impl Abort, ranks: &mut Ranks<Echo>) -> Result<(), Fail> {
    ranks.send(0, 3, NOTE, b"abc")?;
    ranks.turns(&[0, 2, 2])?;
    ranks.send(2, 3, NOTE, b"d")?;
    ranks.turns(&[2, 2, 3, 3, 3, 3])?;
    same(rt, ranks.state(3)?, (b"abdc".as_slice(), 0, 4));
    Ok(())
}

#[test]
fn letters_are_forwarded_in_order(rt: HostRuntime) -> Result<(), Fail> {
    forwarded(&rt, &mut nodes_of(rt.alloc(), Scheme::Nr)?)
}

// Letters of 14 bytes: four fill a batch.
fn shared(rt: &impl Abort, ranks: &mut Ranks<Echo>) -> Result<(), Fail> {
    for first in b"abcdef" {
        ranks.try_send(0, 1, NOTE, &[*first])??;
    }
    ranks.turn(0)?;
    let put = ranks.put_by(0)?;
    same(rt, put.as_slice(), [(1, 4), (1, 2)].as_slice());
    Ok(())
}

#[test]
fn short_letters_share_a_batch(rt: HostRuntime) -> Result<(), Fail> {
    shared(&rt, &mut nodes_of(rt.alloc(), Scheme::Nr)?)
}
