//! A shard by itself.
use crate::{Draws, RigFault};
use comm_rank::{Handler, Outgoing};
use msg_codec::{LetterRef, MAX_BODY};
use std::alloc::{AllocError, Global};

/// A shard that runs letters without a rank, as the only one of its world.
#[derive(Drop)]
pub struct LoneShard<H> {
    alloc: Global,
    shard: Box<H>,
}

/// What a shard should keep, as a plain value that a reader believes, and letters for both.
pub trait PlainShard<H> {
    /// Draws a letter, and changes the plain value as the letter should change a shard. It returns the letter's tag and
    /// body.
    fn next_letter(
        &mut self,
        alloc: Global,
        draws: &mut Draws,
    ) -> Result<(u8, Vec<u8>), AllocError>;

    /// Whether the shard keeps the plain value, by all of its reading calls.
    fn is_kept_by(&self, shard: &H) -> bool;
}

impl<H: Handler> LoneShard<H> {
    pub fn new(alloc: Global, shard: H) -> Result<LoneShard<H>, RigFault> {
        Ok(LoneShard {
            alloc,
            shard: Box::new(alloc, shard)?,
        })
    }

    /// The shard, to read it.
    pub fn shard(&self) -> &H {
        &self.shard
    }

    /// Runs a letter with this tag and body, and returns how many letters the shard sent then.
    pub fn run(&mut self, tag: u8, body: &[u8]) -> Result<u64, RigFault> {
        if body.len() > MAX_BODY {
            return Err(RigFault::TooLong);
        }
        let letter = LetterRef {
            to: 0,
            from: 0,
            tag,
            body,
        };
        let mut out = Outgoing::new(self.alloc, 1);
        self.shard.run(0, letter, &mut out)?;
        Ok(out.count())
    }

    /// Runs so many letters that the plain shard draws, and compares the two after each. It returns the number of the
    /// first letter, from 0, after which they differ, or `None`.
    pub fn first_difference<P: PlainShard<H>>(
        &mut self,
        plain: &mut P,
        letters: u64,
        seed: u64,
    ) -> Result<Option<u64>, RigFault> {
        let mut draws = Draws::new(seed);
        for k in 0..letters {
            let (tag, body) = plain.next_letter(self.alloc, &mut draws)?;
            self.run(tag, &body)?;
            if !plain.is_kept_by(&self.shard) {
                return Ok(Some(k));
            }
        }
        Ok(None)
    }
}
