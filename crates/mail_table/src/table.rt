//! The table, its passes, and what remains of them.
ghost use Rattle.std.specs.Prelude.{◌≡◌, ◌<◌, ◌≤◌, true, None, OnOk, IfErr, IfOk, IfSome, IsNone};
ghost use Rattle.world_core.specs.Modest.{IsWorld};
ghost use Rattle.world_core.specs.Post.{IfFull, IfNoMemory, batch_back};
ghost use Rattle.world_core.specs.Rules.{first_broken};
ghost use Rattle.world_core.specs.Rules.Deed.{Puts};
ghost use Rattle.mail_table.specs.Calls.{BatchPut, BatchTaken, LinkFull, NothingNew, StopLoaded};
ghost use Rattle.mail_table.specs.Table.{AreAllPasses, IsFreshTable, IsPassOf, IsSettings, local_of, world_of};

use crate::closed::Closed;
use crate::links::Links;
use crate::pass::Pass;
use crate::passes::{all_passes, joined};
use crate::settings::Settings;
use msg_codec::Batch;
use std::alloc::{AllocError, Global};
use std::marker::Model;
use world_core::laws::an_honest_put_is_between_ranks;
use world_core::{Limits, PutBack};
use ygm_route::{Layout, Scheme};

/// The links between all ranks of a world, which threads share. A rank reaches them with its pass. No call waits, and
/// all but `new` take no memory.
#[derive(Drop)]
pub struct MailTable {
    links: Links,
}

impl Model for MailTable {
    ghost use Rattle.mail_table.specs.Table.{TableState};

    ghost Value = { TableState };

    ghost view = { λ t. record { id = t.links.table.shared.table_id; settings = t.links.settings } };
}

impl MailTable {
    /// Empty links that hold at most `ring` batches each and carry at most `limits.batches`, and a pass for each rank.
    pub fn new(
        alloc: Global,
        layout: Layout,
        scheme: Scheme,
        ring: u32,
        limits: Limits,
    ) -> Result<(MailTable, Vec<Pass>), AllocError>
        requires some { 1 ≤ ring }
        requires few { ring ≤ 4 }
        ensures { IfOk result (λ made. IsFreshTable layout scheme ring limits.batches made.0 made.1.items) }
    {
        let settings = Settings {
            layout,
            scheme,
            ring: ring as u64,
            batches: limits.batches,
        };
        let (links, seat) = Links::new(alloc, settings)?;
        let passes = all_passes(alloc, &links, seat)?;
        Ok((MailTable { links }, passes))
    }

    /// It does nothing. A layout has at most 32 ranks, a link holds from one to four batches, and carries at most as many
    /// as a link may.
    pub fn holds(&self)
        ensures { IsSettings self.now.settings }
    {
        let _ = &self.links;
    }

    /// Puts a batch, as the rank of the pass, into its link to `to`. The batch breaks no rule.
    pub fn put(&self, pass: &mut Pass, to: u32, batch: Batch) -> Result<(), PutBack>
        requires pass { IsPassOf self.now pass.old }
        requires honest { first_broken (local_of pass.old) (Puts to batch) ≡ None }
        ensures done { OnOk result (BatchPut to batch pass.old pass.new) }
        ensures full { IfFull result (LinkFull to pass.old pass.new) }
        ensures no_memory { IfNoMemory result ⊥ }
        ensures back { IfErr result (λ back. batch_back back ≡ batch) }
    {
        an_honest_put_is_between_ranks();
        let made = pass.puts[to as usize];
        match self
            .links
            .put_at(&mut pass.seat, pass.rank, to, made, batch)
        {
            Ok(()) => {
                pass.puts[to as usize] = made + 1;
                Ok(())
            }
            Err(batch) => Err(PutBack::Full(batch)),
        }
    }

    /// Takes, as the rank of the pass, the oldest batch of the link from `from`, if one is there.
    pub fn take(&self, pass: &mut Pass, from: u32) -> Option<Batch>
        requires pass { IsPassOf self.now pass.old }
        requires sender { from < self.now.settings.layout.ranks }
        ensures took { IfSome result (λ batch. BatchTaken from batch pass.old pass.new) }
        ensures none { IsNone result → NothingNew from pass.old pass.new }
    {
        let made = pass.takes[from as usize];
        let batch = self.links.take_at(&mut pass.seat, pass.rank, from, made)?;
        pass.takes[from as usize] = made + 1;
        Some(batch)
    }

    /// Raises the stop for the rank of the pass, for good.
    pub fn raise_stop(&self, pass: &mut Pass)
        requires { IsPassOf self.now pass.old }
        ensures { pass.new ≡ record pass.old { raised = true } }
    {
        self.links.raise_at(&mut pass.seat);
    }

    /// Whether the stop is raised, as the rank of the pass finds it.
    pub fn stopped(&self, pass: &mut Pass) -> bool
        requires { IsPassOf self.now pass.old }
        ensures { StopLoaded result pass.old pass.new }
    {
        self.links.look_at(&mut pass.seat) != 0
    }

    /// Joins all passes. Batches that weren't taken are dropped. The logs are those of a sound world: between any two
    /// steps of threads they were.
    pub fn close(self, passes: Vec<Pass>) -> Closed
        requires { AreAllPasses self passes.items }
        ensures logs { result ≡ world_of self passes.items }
        ensures sound { IsWorld result }
    {
        let MailTable { links } = self;
        Closed::of(joined(&links, passes))
    }
}
