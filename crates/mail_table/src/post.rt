//! A post for one rank, over a table.
ghost use Rattle.std.specs.Prelude.{◌≡◌, ◌<◌, true, false, None, IsTrue, IsNone, IfSome, OnOk, IfErr};
ghost use Rattle.world_core.specs.Kept.{Counted};
ghost use Rattle.world_core.specs.Post.{IfFull, IfNoMemory, LookKeeps, PutKeeps, RaiseKeeps, StopRaised, TakeKeeps, batch_back, local_at};
ghost use Rattle.world_core.specs.Rules.{first_broken};
ghost use Rattle.world_core.specs.Rules.Deed.{Puts};
ghost use Rattle.mail_table.specs.Serving.{ServedFull, ServedNoStop, ServedNone, ServedPut, ServedStop, ServedTake, serving, state_of};
ghost use Rattle.mail_table.specs.Table.{IsPassOf};

use crate::pass::Pass;
use crate::table::MailTable;
use msg_codec::Batch;
use rising_counts::one_more;
use std::marker::Model;
use world_core::laws::an_honest_put_is_between_ranks;
use world_core::{Post, PutBack};

/// Adds one to the count of a rank. A count at the largest value of its type stays there.
fn count_one(counts: &mut [u64; 64], rank: u32)
    requires { rank < 64 }
    ensures { Counted rank counts.old counts.new }
{
    let count = counts[rank as usize];
    counts[rank as usize] = one_more(count);
}

/// A post for the rank of a pass. It may be made for one turn and taken apart after it, and takes no memory.
#[derive(Drop)]
pub struct TablePost<'a> {
    table: &'a MailTable,
    pass: Pass,
    fulls: [u64; 64],
    misses: [u64; 64],
    halts: u64,
}

impl<'a> Model for TablePost<'a> {
    ghost use Rattle.mail_table.specs.Serving.{Serving};
    ghost use Rattle.mail_table.specs.Table.{IsPassOf};

    ghost Value = { Serving };

    ghost view = { λ p. record { pass = p.pass; fulls = p.fulls; misses = p.misses; halts = p.halts } };

    ghost invariant = { λ p. IsPassOf p.table.now p.pass };
}

impl<'a> TablePost<'a> {
    /// A post whose counts are at 0.
    pub fn new(table: &'a MailTable, pass: Pass) -> TablePost<'a>
        requires { IsPassOf table.now pass }
        ensures { result ≡ serving pass }
    {
        TablePost {
            table,
            pass,
            fulls: [0; 64],
            misses: [0; 64],
            halts: 0,
        }
    }

    /// Gives the pass back.
    pub fn into_pass(self) -> Pass
        ensures { result ≡ self.entry.pass }
    {
        let TablePost {
            table: _,
            pass,
            fulls: _,
            misses: _,
            halts: _,
        } = self;
        pass
    }
}

impl<'a> Post for TablePost<'a> {
    ghost state = { state_of };

    fn put(&mut self, here: u32, to: u32, batch: Batch) -> Result<(), PutBack>
        requires serves { IsTrue ((state_of self.old).serves here) }
        requires honest { first_broken (local_at (state_of self.old) here) (Puts to batch) ≡ None }
        ensures done { OnOk result (ServedPut here to batch self.old self.new) }
        ensures full { IfFull result (ServedFull here to self.old self.new) }
        ensures no_memory { IfNoMemory result ⊥ }
        ensures back { IfErr result (λ back. batch_back back ≡ batch) }
        ensures keeps { PutKeeps here (state_of self.old) (state_of self.new) }
    {
        let _ = here;
        an_honest_put_is_between_ranks();
        self.table.holds();
        match self.table.put(&mut self.pass, to, batch) {
            Err(PutBack::Full(batch)) => {
                count_one(&mut self.fulls, to);
                Err(PutBack::Full(batch))
            }
            other => other,
        }
    }

    fn take(&mut self, here: u32, from: u32) -> Option<Batch>
        requires serves { IsTrue ((state_of self.old).serves here) }
        requires sender { from < (state_of self.old).layout.ranks }
        ensures took { IfSome result (λ batch. ServedTake here from batch self.old self.new) }
        ensures none { IsNone result → ServedNone here from self.old self.new }
        ensures keeps { TakeKeeps here (state_of self.old) (state_of self.new) }
    {
        let _ = here;
        self.table.holds();
        match self.table.take(&mut self.pass, from) {
            Some(batch) => Some(batch),
            None => {
                count_one(&mut self.misses, from);
                None
            }
        }
    }

    fn raise_stop(&mut self, here: u32)
        requires { IsTrue ((state_of self.old).serves here) }
        ensures raised { StopRaised here (state_of self.old) (state_of self.new) }
        ensures pass { self.new.pass ≡ record self.old.pass { raised = true } }
        ensures keeps { RaiseKeeps here (state_of self.old) (state_of self.new) }
    {
        let _ = here;
        self.table.raise_stop(&mut self.pass);
    }

    fn stopped(&mut self, here: u32) -> bool
        requires { IsTrue ((state_of self.old).serves here) }
        ensures saw { result ≡ true → ServedStop self.old self.new }
        ensures saw_none { result ≡ false → ServedNoStop self.old self.new }
        ensures keeps { LookKeeps here (state_of self.old) (state_of self.new) }
    {
        let _ = here;
        let stopped = self.table.stopped(&mut self.pass);
        if stopped {
            self.halts = one_more(self.halts);
        }
        stopped
    }
}
