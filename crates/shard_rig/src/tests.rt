ghost use Rattle.std.specs.Prelude.{[], refl};

use super::*;
use comm_rank::{Comm, Handler, Outgoing};
use msg_codec::{Body, LetterRef};
use std::alloc::{AllocError, Global};
use std::fmt::Debug;
use std::process::Abort;
use std::test::*;
use world_core::Limits;
use ygm_taps::QuietTap;

// A handler that keeps the tag of the last letter.
#[derive(Drop)]
struct LastTag {
    tag: u8,
}

const NO_TAG: LastTag = LastTag { tag: 0 };

impl Handler for LastTag {
    ghost apply = { λ _ _ _ l. (record { tag = l.tag }, []) };

    ghost start = { λ _. record { tag = 0 } };

    fn run(
        &mut self,
        _here: u32,
        letter: LetterRef<'_>,
        _out: &mut Outgoing,
    ) -> Result<(), AllocError> {
        self.tag = letter.tag;
        Ok(())
    }

    ghost keeps_start = { λ _ _ _ _. refl };
}

// Fails the test unless both are equal. The macro would be proved anew wherever it stands.
fn same<T: PartialEq + Debug + Drop>(rt: &impl Abort, found: T, wanted: T) {
    assert_eq!(rt; found, wanted);
}

// A letter without a body.
#[derive(Drop)]
struct Send {
    alloc: Global,
    to: u32,
    tag: u8,
}

impl Call<LastTag> for Send {
    fn make(&mut self, comm: &mut Comm<LastTag, QuietTap>) -> Result<(), RigFault> {
        if self.to >= comm.ranks() || self.tag >= 240 {
            return Err(RigFault::NoSuchRank);
        }
        comm.send(self.to, self.tag, Body::from_vec(Vec::new(self.alloc)))?;
        Ok(())
    }
}

// Rank 0 of three sends to rank 2, and the letter runs there alone.
fn at_its_destination(
    rt: &impl Abort,
    alloc: Global,
    ranks: &mut Ranks<LastTag>,
) -> Result<(), RigFault> {
    for _ in 0..3 {
        ranks.add(NO_TAG)?;
    }
    let mut send = Send {
        alloc,
        to: 2,
        tag: 16,
    };
    ranks.call(0, &mut send)?;
    ranks.run_all()?;
    let tags = (
        ranks.shard(0)?.tag,
        ranks.shard(1)?.tag,
        ranks.shard(2)?.tag,
    );
    same(rt, (tags, ranks.sent_count(0)?), ((0, 0, 16), 1));
    Ok(())
}

#[test]
fn a_letter_runs_at_its_destination(rt: HostRuntime) -> Result<(), Fail> {
    let mut ranks = Ranks::new(rt.alloc(), 3, Limits::FULL)?;
    at_its_destination(&rt, rt.alloc(), &mut ranks)?;
    Ok(())
}

// Draws tags below 10, and expects each that is below 8.
#[derive(Drop)]
struct Below8 {
    tag: u8,
}

impl PlainShard<LastTag> for Below8 {
    fn next_letter(
        &mut self,
        alloc: Global,
        draws: &mut Draws,
    ) -> Result<(u8, Vec<u8>), AllocError> {
        let tag = draws.below(10) as u8;
        if tag < 8 {
            self.tag = tag;
        }
        Ok((tag, Vec::new(alloc)))
    }

    fn is_kept_by(&self, shard: &LastTag) -> bool {
        shard.tag == self.tag
    }
}

// The tags that seed 0 gives are 7, 4, 7, 6, 5, 1, 4, 5, 4 and 9.
#[test]
fn the_first_difference_is_found(rt: HostRuntime) -> Result<(), Fail> {
    let mut lone = LoneShard::new(rt.alloc(), NO_TAG)?;
    let found = lone.first_difference(&mut Below8 { tag: 0 }, 20, 0)?;
    same(&rt, (found, lone.shard().tag), (Some(9), 9));
    Ok(())
}
