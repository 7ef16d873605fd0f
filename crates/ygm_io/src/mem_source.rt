//! A source in memory.
ghost use Rattle.std.specs.Prelude.{◌≡◌, ◌<◌, ◌≤◌, ◌↔◌, length, Some, IsErr, IfOk, OnErr};
ghost use Rattle.ygm_io.specs.Content.{NothingLeft};
ghost use Rattle.ygm_io.specs.Memory.{MemoryRead, MemoryReadFailed};
ghost use Rattle.ygm_io.specs.Plan.{fresh_plan, NextFails};

use crate::plan::FaultPlan;
use crate::unread::Unread;
use crate::{Failed, Source};
use std::alloc::{AllocError, Global};

/// A source in memory, for tests: it exposes its bytes, and fails at the calls that it was given.
#[derive(Debug, Drop)]
pub struct MemSource {
    left: Unread,
    plan: FaultPlan,
}

impl MemSource {
    /// A source of a copy of `bytes`. The reads whose numbers are in `fails` fail; reads are counted
    /// from 0.
    pub fn new(alloc: Global, bytes: &[u8], fails: &[u64]) -> Result<MemSource, AllocError>
        ensures bytes { IfOk result (λ source. source.left ≡ bytes.now) }
        ensures plan { IfOk result (λ source. source.plan ≡ fresh_plan fails.now) }
    {
        Ok(MemSource {
            left: Unread::new(alloc, bytes)?,
            plan: FaultPlan::new(alloc, fails)?,
        })
    }

    /// The bytes that remain.
    pub fn left(&self) -> &[u8]
        ensures { result.now ≡ self.now.left }
    {
        self.left.as_slice()
    }

    /// How often a read has failed.
    pub fn faults(&self) -> u64
        ensures { result ≡ self.now.plan.faults }
    {
        self.plan.faults()
    }
}

impl Source for MemSource {
    ghost left = { λ source. Some source.left };

    ghost faults = { λ source. source.plan.faults };

    /// Reads as many bytes as remain and fit. It fails at the calls that it was given, and nowhere else.
    fn read(&mut self, into: &mut [u8]) -> Result<usize, Failed>
        ensures took { IfOk result (λ count. MemoryRead count into.old into.new self.old self.new) }
        ensures end { IfOk result (λ count.
            count ≡ 0 → 0 < length into.old → NothingLeft (Some self.old.left)) }
        ensures failed { OnErr result (MemoryReadFailed into.old into.new self.old self.new) }
        ensures at_listed_calls { IsErr result ↔ NextFails self.old.plan }
        ensures never_falls { self.old.plan.faults ≤ self.new.plan.faults }
    {
        if self.plan.next_fails() {
            self.plan.count_fault();
            return Err(Failed);
        }
        self.plan.count_call();
        Ok(self.left.move_into(into))
    }
}
