//! Ranks whose taps keep, or refuse, each letter that ran.
ghost use Rattle.std.specs.Prelude.{◌≡◌, []};
ghost use Rattle.ygm_taps.specs.Heard.{told_of};

use super::queue_post::{Lone, QueuePost, lone_of};
use super::{ANSWER, ASK, Echo, LONG, NOTE, same};
use crate::CommFault;
use std::alloc::{AllocError, Global};
use std::process::Abort;
use std::test::*;
use world_core::Limits;
use ygm_taps::{ListTap, Tap, Told};

// A tap that is always out of memory.
#[derive(Clone, Copy)]
struct FullTap;

impl Tap for FullTap {
    ghost use Rattle.std.specs.Prelude.{None};

    ghost heard = { λ _. None };

    fn start(&mut self, _keep: bool) {}

    fn ran(&mut self, _from: u32, _tag: u8, _body: &[u8]) -> Result<(), AllocError> {
        Err(AllocError)
    }

    fn len(&self) -> u64 {
        0
    }

    fn entry(&self, _k: u64) -> Told<'_>
        ensures { told_of result ≡ record { from = 0; tag = 0; body = [] } }
    {
        Told {
            from: 0,
            tag: 0,
            body: &[],
        }
    }
}

// The sender, the tag and the length of each letter that a tap keeps.
fn kept_by<T: Tap>(alloc: Global, tap: &T) -> Result<Vec<(u32, u8, usize)>, Fail> {
    let mut kept = Vec::new(alloc);
    for k in 0..tap.len() {
        let told = tap.entry(k);
        kept.push((told.from, told.tag, told.body.len()))?;
    }
    Ok(kept)
}

// A rank sends itself a note and a question, which it answers twice.
fn asks_itself(lone: &mut Lone<Echo, ListTap, QueuePost>) -> Result<(), Fail> {
    lone.send(NOTE, b'a')?;
    lone.send(ASK, b'q')?;
    for _ in 0..5 {
        lone.turn()?;
    }
    Ok(())
}

#[test]
fn a_tap_hears_each_letter_that_ran(rt: HostRuntime) -> Result<(), Fail> {
    let alloc = rt.alloc();
    let mut tap = ListTap::new(alloc);
    tap.start(true);
    let mut lone = lone_of(alloc, Limits::FULL, tap)?;
    asks_itself(&mut lone)?;
    let kept = kept_by(alloc, &lone.finish().tap)?;
    let ran = [
        (0, NOTE, LONG),
        (0, ASK, LONG),
        (0, ANSWER, LONG),
        (0, ANSWER, 0),
    ];
    same(&rt, kept.as_slice(), ran.as_slice());
    Ok(())
}

// The turn in which the letter runs fails.
fn is_refused(rt: &impl Abort, lone: &mut Lone<Echo, FullTap, QueuePost>) -> Result<(), Fail> {
    lone.send(NOTE, b'a')?;
    lone.turn()?;
    let refused = matches!(lone.try_turn()?, Err(CommFault::NoMemory));
    same(
        rt,
        (refused, lone.comm.is_stopped(), lone.comm.run_count()),
        (true, true, 1),
    );
    Ok(())
}

#[test]
fn a_letter_that_the_tap_refuses_has_run(rt: HostRuntime) -> Result<(), Fail> {
    is_refused(&rt, &mut lone_of(rt.alloc(), Limits::FULL, FullTap)?)
}
