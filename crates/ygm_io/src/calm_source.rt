//! A source that never fails.
ghost use Rattle.std.specs.Prelude.{◌≡◌, ◌<◌, length, Some, IfOk, OnErr};
ghost use Rattle.ygm_io.specs.Content.{NothingLeft};
ghost use Rattle.ygm_io.specs.Memory.{Moved};
ghost use Rattle.ygm_io.specs.Reads.{PieceRead};

use crate::unread::Unread;
use crate::{Failed, Source};
use std::alloc::{AllocError, Global};

/// A source in memory that never fails.
#[derive(Debug, Drop)]
pub struct CalmSource {
    left: Unread,
}

impl CalmSource {
    /// A source of a copy of `bytes`.
    pub fn new(alloc: Global, bytes: &[u8]) -> Result<CalmSource, AllocError>
        ensures { IfOk result (λ source. source.left ≡ bytes.now) }
    {
        Ok(CalmSource {
            left: Unread::new(alloc, bytes)?,
        })
    }

    /// The bytes that remain.
    pub fn left(&self) -> &[u8]
        ensures { result.now ≡ self.now.left }
    {
        self.left.as_slice()
    }
}

impl Source for CalmSource {
    ghost left = { λ source. Some source.left };

    ghost faults = { λ _. 0 };

    /// Reads as many bytes as remain and fit.
    fn read(&mut self, into: &mut [u8]) -> Result<usize, Failed>
        ensures took { IfOk result (λ count. PieceRead count into.old into.new (Some self.old.left) (Some self.new.left) 0 0) }
        ensures moved { IfOk result (λ count. Moved count into.old into.new self.old.left self.new.left) }
        ensures end { IfOk result (λ count.
            count ≡ 0 → 0 < length into.old → NothingLeft (Some self.old.left)) }
        ensures never_fails { OnErr result ⊥ }
    {
        Ok(self.left.move_into(into))
    }
}
