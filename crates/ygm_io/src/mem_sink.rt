//! A sink in memory.
ghost use Rattle.std.specs.Prelude.{◌≡◌, ◌≤◌, [], Some, IsErr, IfOk, OnErr, vec_capacity};
ghost use Rattle.ygm_io.specs.Memory.{MemoryWriteFailed, MemoryWritten};
ghost use Rattle.ygm_io.specs.Plan.{fresh_plan, NextFails};

use crate::plan::FaultPlan;
use crate::{Failed, Sink};
use std::alloc::{AllocError, Global};

/// A sink in memory, for tests: it exposes its bytes, fails at the calls that it was given, and takes
/// only so many bytes at once.
#[derive(Debug, Drop)]
pub struct MemSink {
    held: Vec<u8>,
    plan: FaultPlan,
    most: usize,
    ghost takes_some: { 1 ≤ most },
}

impl MemSink {
    /// An empty sink. The writes whose numbers are in `fails` fail; writes are counted from 0. One
    /// write takes at most `most` bytes.
    pub fn new(alloc: Global, fails: &[u64], most: usize) -> Result<MemSink, AllocError>
        requires { 1 ≤ most }
        ensures empty { IfOk result (λ sink. sink.held.items ≡ []) }
        ensures plan { IfOk result (λ sink. sink.plan ≡ fresh_plan fails.now) }
        ensures most { IfOk result (λ sink. sink.most ≡ most) }
    {
        Ok(MemSink {
            held: Vec::new(alloc),
            plan: FaultPlan::new(alloc, fails)?,
            most,
        })
    }

    /// The bytes that were written.
    pub fn bytes(&self) -> &[u8]
        ensures { result.now ≡ self.now.held.items }
    {
        &self.held
    }

    /// How often a write has failed.
    pub fn faults(&self) -> u64
        ensures { result ≡ self.now.plan.faults }
    {
        self.plan.faults()
    }
}

impl Sink for MemSink {
    ghost holds = { λ sink. Some sink.held.items };

    ghost faults = { λ sink. sink.plan.faults };

    /// Writes as many bytes as one call takes. It fails at the calls that it was given, and where it
    /// has to take memory and that is refused.
    fn write(&mut self, bytes: &[u8]) -> Result<usize, Failed>
        ensures took { IfOk result (λ count. MemoryWritten count bytes.now
            self.old.held.items self.new.held.items self.old.most self.old.plan self.new.plan) }
        ensures failed { OnErr result (MemoryWriteFailed bytes.now
            self.old.held.items self.new.held.items (vec_capacity self.old.held) self.old.most self.old.plan self.new.plan) }
        ensures at_listed_calls { NextFails self.old.plan → IsErr result }
        ensures same_most { self.new ≡ record self.old { held = self.new.held; plan = self.new.plan } }
        ensures never_falls { self.old.plan.faults ≤ self.new.plan.faults }
    {
        let count = bytes.len().min(self.most);
        if self.plan.next_fails() || self.held.extend_from_slice(&bytes[..count]).is_err() {
            self.plan.count_fault();
            return Err(Failed);
        }
        self.plan.count_call();
        Ok(count)
    }
}
