//! Which calls of an object are to fail.
ghost use Rattle.std.specs.Prelude.{◌≡◌, ◌≤◌, ◌↔◌, ◌++◌, [], ◌∷◌, IfOk, OnOk, OnErr, IsTrue};
ghost use Rattle.ygm_io.specs.Plan.{Plan, after_call, after_fault, fresh_plan, NextFails};

use rising_counts::one_more;
use std::alloc::{AllocError, Global};
use std::marker::Model;

/// The numbers of the calls that are to fail, counted from 0, with the counts of calls and faults.
/// Both counts stay at `u64::MAX` once they are there.
#[derive(Debug, Drop)]
pub struct FaultPlan {
    fails: Vec<u64>,
    calls: u64,
    faults: u64,
}

impl Model for FaultPlan {
    ghost Value = { Plan };

    ghost view = { λ plan.
        record { fails = plan.fails.items; calls = plan.calls; faults = plan.faults } };
}

impl FaultPlan {
    pub fn new(alloc: Global, fails: &[u64]) -> Result<FaultPlan, AllocError>
        ensures { IfOk result (λ plan. plan ≡ fresh_plan fails.now) }
    {
        Ok(FaultPlan {
            fails: fails.to_vec(alloc)?,
            calls: 0,
            faults: 0,
        })
    }

    pub fn without_faults(alloc: Global) -> FaultPlan
        ensures { result ≡ fresh_plan [] }
    {
        FaultPlan {
            fails: Vec::new(alloc),
            calls: 0,
            faults: 0,
        }
    }

    /// Adds a call to those that are to fail.
    pub fn add(&mut self, call: u64) -> Result<(), AllocError>
        ensures added { OnOk result (self.new ≡ record self.old { fails = self.old.fails ++ call ∷ [] }) }
        ensures unchanged { OnErr result (self.new ≡ self.old) }
    {
        self.fails.push(call)?;
        Ok(())
    }

    /// Whether the next call is to fail.
    pub fn next_fails(&self) -> bool
        ensures { IsTrue result ↔ NextFails self.now }
    {
        self.fails.contains(&self.calls)
    }

    /// Counts a call that doesn't fail.
    pub fn count_call(&mut self)
        ensures { self.new ≡ after_call self.old }
    {
        self.calls = one_more(self.calls);
    }

    /// Counts a call that fails.
    pub fn count_fault(&mut self)
        ensures counted { self.new ≡ after_fault self.old }
        ensures never_falls { self.old.faults ≤ self.new.faults }
    {
        self.calls = one_more(self.calls);
        self.faults = one_more(self.faults);
    }

    pub fn faults(&self) -> u64
        ensures { result ≡ self.now.faults }
    {
        self.faults
    }
}
