//! A count with a limit.
ghost use Rattle.std.specs.Prelude.{◌≡◌, ◌+◌, ◌<◌, ◌≤◌, ◌↔◌, ℕ, IsErr, OnOk, OnErr, IfErr};

use std::marker::Model;
use thiserror::Error;

/// A count that never passes its limit.
#[derive(Debug, Drop)]
pub struct Counter {
    count: u64,
    limit: u64,
}

impl Model for Counter {
    ghost use Rattle.std.specs.Prelude.{◌≤◌};
    ghost use Rattle.msg_codec.specs.Count.{Count};

    ghost Value = { Count };

    ghost view = { λ counter. record { count = counter.count; limit = counter.limit } };

    ghost invariant = { λ counter. counter.count ≤ counter.limit };
}

/// Shows that a counter couldn't be raised by what was asked. `Counter::raise` alone makes one, so
/// whoever has it for some limit knows that a counter was raised to at least that limit less 63.
#[derive(Clone, Copy, Debug, PartialEq, Eq, Error)]
#[error("the count is at its limit")]
pub struct AtLimit {
    limit: u64,
}

impl Model for AtLimit {
    ghost Value = { ℕ };

    ghost view = { λ at. at.limit };

    ghost inverse = { λ limit. record { limit = limit } };
}

impl Counter {
    /// A counter at 0.
    pub fn new(limit: u64) -> Counter
        ensures zero { result.count ≡ 0 }
        ensures limit { result.limit ≡ limit }
    {
        Counter { count: 0, limit }
    }

    /// Adds `by`. It refuses a sum above the limit, and then the counter is unchanged.
    pub fn raise(&mut self, by: u64) -> Result<(), AtLimit>
        requires at_least_one { 1 ≤ by }
        requires few { by ≤ 64 }
        ensures refused { IsErr result ↔ (self.old.limit < self.old.count + by) }
        ensures raised { OnOk result (self.new.count ≡ self.old.count + by) }
        ensures kept { OnOk result (self.new.limit ≡ self.old.limit) }
        ensures at_limit { IfErr result (λ at. at ≡ self.old.limit) }
        ensures unchanged { OnErr result (self.new ≡ self.old) }
    {
        if by > self.limit - self.count {
            return Err(AtLimit { limit: self.limit });
        }
        self.count += by;
        Ok(())
    }

    /// The count.
    pub fn count(&self) -> u64
        ensures value { result ≡ self.now.count }
        ensures within { self.now.count ≤ self.now.limit }
    {
        self.count
    }
}

impl AtLimit {
    /// The limit of the counter that returned it.
    pub fn limit(&self) -> u64
        ensures { result ≡ self.now }
    {
        self.limit
    }
}
