//! A sink over a writer of std.
ghost use Rattle.std.specs.Prelude.{◌≡◌, ◌≤◌, None, IfOk, OnErr};
ghost use Rattle.std.specs.Io.KnownBytes.{WriteAppends};
ghost use Rattle.rising_counts.specs.Rising.{next_count};
ghost use Rattle.ygm_io.specs.Content.{CallFailed};
ghost use Rattle.ygm_io.specs.Writes.{PieceWritten};

use crate::tries::MOST_TRIES;
use crate::{Failed, Sink};
use rising_counts::one_more;
use std::io::{ErrorKind, Write};

/// A sink over a writer of std. It exposes no bytes, and its count of faults stays at `u64::MAX` once
/// it is there.
///
/// The writer must have no buffer: it is never flushed, so bytes that a buffer still holds would count
/// as written.
#[derive(Debug, Drop)]
pub struct StdSink<W> {
    writer: W,
    faults: u64,
}

impl<W: Write> StdSink<W> {
    /// A sink whose writes are those of `writer`.
    pub fn new(writer: W) -> StdSink<W>
        ensures fresh { result.faults ≡ 0 }
        ensures same { result.writer ≡ writer }
    {
        StdSink { writer, faults: 0 }
    }

    /// How often a write has failed.
    pub fn faults(&self) -> u64
        ensures { result ≡ self.now.faults }
    {
        self.faults
    }
}

impl<W: Write> Sink for StdSink<W> {
    ghost holds = { λ _. None };

    ghost faults = { λ sink. sink.faults };

    /// One write of the writer. A write that a signal interrupts is tried again, and one that takes no
    /// byte of a piece that isn't empty is a fault.
    #[tactic(auto, using(crate::proofs::KnownBytes::AfterKept::keeps_on, crate::proofs::KnownBytes::AfterKept::appends_on, crate::proofs::KnownBytes::AfterKept::appends_nothing))]
    fn write(&mut self, bytes: &[u8]) -> Result<usize, Failed>
        ensures took { IfOk result (λ count. PieceWritten count bytes.now None None self.old.faults self.new.faults) }
        ensures failed { OnErr result (CallFailed None None self.old.faults self.new.faults) }
        ensures never_falls { self.old.faults ≤ self.new.faults }
        ensures counted_fault { OnErr result (self.new.faults ≡ next_count self.old.faults) }
        // where the writer's bytes are known, they are passed on
        ensures passed_on { WriteAppends (W.contents self.old.writer) (W.contents self.new.writer) result bytes.now }
    {
        for _ in 0..MOST_TRIES {
            match self.writer.write(bytes) {
                Ok(count) if count > 0 || bytes.is_empty() => return Ok(count),
                Err(error) if error.kind() == ErrorKind::Interrupted => {}
                _ => break,
            }
        }
        self.faults = one_more(self.faults);
        Err(Failed)
    }
}
