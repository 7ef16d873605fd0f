//! A source over a reader of std.
ghost use Rattle.std.specs.Prelude.{◌≡◌, ◌≤◌, None, IfOk, OnErr};
ghost use Rattle.std.specs.Io.KnownBytes.{ReadConsumes};
ghost use Rattle.rising_counts.specs.Rising.{next_count};
ghost use Rattle.ygm_io.specs.Content.{CallFailed};
ghost use Rattle.ygm_io.specs.Reads.{PieceRead};

use crate::tries::MOST_TRIES;
use crate::{Failed, Source};
use rising_counts::one_more;
use std::io::{ErrorKind, Read};

/// A source over a reader of std. It exposes no bytes, and its count of faults stays at `u64::MAX`
/// once it is there.
#[derive(Debug, Drop)]
pub struct StdSource<R> {
    reader: R,
    faults: u64,
}

impl<R: Read> StdSource<R> {
    /// A source whose reads are those of `reader`.
    pub fn new(reader: R) -> StdSource<R>
        ensures fresh { result.faults ≡ 0 }
        ensures same { result.reader ≡ reader }
    {
        StdSource { reader, faults: 0 }
    }

    /// How often a read has failed.
    pub fn faults(&self) -> u64
        ensures { result ≡ self.now.faults }
    {
        self.faults
    }
}

impl<R: Read> Source for StdSource<R> {
    ghost left = { λ _. None };

    ghost faults = { λ source. source.faults };

    /// One read of the reader. A read that a signal interrupts is tried again.
    #[tactic(auto, using(crate::proofs::KnownBytes::AfterKept::keeps_on, crate::proofs::KnownBytes::AfterKept::consumes_on))]
    fn read(&mut self, into: &mut [u8]) -> Result<usize, Failed>
        ensures took { IfOk result (λ count. PieceRead count into.old into.new None None self.old.faults self.new.faults) }
        ensures failed { OnErr result (CallFailed None None self.old.faults self.new.faults) }
        ensures never_falls { self.old.faults ≤ self.new.faults }
        ensures counted_fault { OnErr result (self.new.faults ≡ next_count self.old.faults) }
        // where the reader's bytes are known, they are passed on
        ensures passed_on { ReadConsumes (R.remaining self.old.reader) (R.remaining self.new.reader) result into.new }
    {
        for _ in 0..MOST_TRIES {
            match self.reader.read(into) {
                Ok(count) => return Ok(count),
                Err(error) if error.kind() == ErrorKind::Interrupted => {}
                Err(_) => break,
            }
        }
        self.faults = one_more(self.faults);
        Err(Failed)
    }
}
