//! Counts and Totals: what a rank puts for a round.
ghost use Rattle.std.specs.Prelude.{◌≡◌, ◌⊎◌, ◌+◌, ◌<◌, ◌≤◌, ℕ, Ok, Some, true, false, None, [], ◌∷◌, IfOk, IfErr, IfSome, IsNone, IsTrue, OnErr};
ghost use Rattle.msg_codec.specs.Control.{letter_of_control};
ghost use Rattle.world_core.specs.Limits.{most_arrived};
ghost use Rattle.world_core.specs.Post.{PutKeeps, SameFulls, local_at};
ghost use Rattle.world_core.specs.Rules.{first_broken};
ghost use Rattle.world_core.specs.Rules.Deed.{Puts};
ghost use Rattle.comm_rank.specs.declared.fault.CommFault.TheVariants.{NoMemory};
ghost use Rattle.comm_rank.specs.Rank.{IsIdle, held_letters};
ghost use Rattle.term_barrier.specs.Barriers.{HasHeardAll, HasPutTotals, HasTotalsDue, destination, IsMissing, IsNextTotal, IsTotalDue, heard_of, round_sums, sums_heard_at, with_total_put};
ghost use Rattle.term_barrier.specs.Polls.{FoundFull, HasPutControls, HasPutDue, PutsLetter, Stands};

use crate::Barrier;
use crate::heard::RoundSums;
use comm_rank::{Comm, CommFault, Handler};
use msg_codec::{Batch, Control};
use std::alloc::Global;
use world_core::{Post, PutBack};
use ygm_taps::Tap;

/// Puts a control letter, as the rank `here`, into its link to `to`. It returns whether the link wasn't full.
fn put_letter<P: Post>(
    post: &mut P,
    alloc: Global,
    here: u32,
    to: u32,
    control: Control,
) -> Result<bool, CommFault>
    requires serves { IsTrue ((P.state post.old).serves here) }
    requires honest { first_broken (local_at (P.state post.old) here) (Puts to (letter_of_control control ∷ [])) ≡ None }
    ensures put { IfOk result (λ put. PutsLetter put here to (letter_of_control control) (P.state post.old) (P.state post.new)) }
    ensures not_put { IfErr result (λ fault. (fault ≡ NoMemory) × ((P.state post.new).log here ≡ (P.state post.old).log here) × SameFulls (P.state post.old) (P.state post.new)) }
    ensures keeps { PutKeeps here (P.state post.old) (P.state post.new) }
{
    match post.put(here, to, Batch::of_control(alloc, control)) {
        Ok(()) => Ok(true),
        Err(PutBack::Full(_)) => Ok(false),
        Err(PutBack::NoMemory(_)) => Err(CommFault::NoMemory),
    }
}

/// Where the Total goes that is next, of so many ranks: to ranks 1, 2 and so on, and to rank 0 last.
fn destination(next: u32, ranks: u32) -> u32
    ensures { result ≡ destination ranks next }
{
    if next < ranks { next } else { 0 }
}

impl Barrier {
    /// Whether the Count of the next round is due: the rank knows each round before, may count one more, and is idle.
    fn has_count_due<H: Handler, T: Tap>(&self, comm: &Comm<H, T>) -> bool
        ensures known { result ≡ true → self.now.counted ≤ self.now.known }
        ensures more { result ≡ true → self.now.counted < self.now.rounds }
        ensures idle { result ≡ true → IsIdle comm.now }
        ensures none { result ≡ false → IsIdle comm.now → self.now.counted < self.now.rounds → self.now.known < self.now.counted }
    {
        self.counted <= self.known && self.counted < self.rounds && comm.is_idle()
    }

    /// Puts the Count of the next round, where it is due. It returns rank 0 where the link to it was full.
    pub(crate) fn put_count<H: Handler, T: Tap, P: Post>(
        &mut self,
        comm: &Comm<H, T>,
        post: &mut P,
    ) -> Result<Option<u32>, CommFault>
        requires stands { Stands H.apply H.start self.old comm.now (P.state post.old) }
        requires inside { self.old.inside ≡ true }
        requires all_handed { comm.now.controls ≡ [] }
        ensures controls { HasPutControls (held_letters comm.now) self.old self.new (P.state post.old) (P.state post.new) }
        ensures stands { Stands H.apply H.start self.new comm.now (P.state post.new) }
        ensures full { IfOk result (λ full. FoundFull self.old.layout.ranks full (P.state post.old) (P.state post.new)) }
        ensures put { IfOk result (λ full. IsIdle comm.now → self.new.counted < self.new.rounds → (self.new.known < self.new.counted) ⊎ (full ≡ Some 0)) }
        ensures no_memory { IfErr result (λ fault. fault ≡ NoMemory) }
    {
        if !self.has_count_due(comm) {
            return Ok(None);
        }
        let count = Control::Count {
            rank: self.here,
            q: self.counted,
            s: comm.sent_count(),
            r: comm.run_count(),
        };
        if !put_letter(post, self.alloc, self.here, 0, count)? {
            return Ok(Some(0));
        }
        self.counted += 1;
        Ok(None)
    }

    /// The lowest rank whose Count of the present round wasn't handed over.
    pub(crate) fn missing(&self) -> Option<u32>
        ensures some { IfSome result (IsMissing self.now) }
        ensures none { IsNone result → HasHeardAll self.now }
    {
        for rank in 0..self.layout.ranks() {
            if self.heard[rank as usize].rounds <= self.known {
                return Some(rank);
            }
        }
        None
    }

    /// The sums that a rank counted in the round after those that are over: the last that was heard of it, or those before.
    fn heard_sums(&self, rank: u32) -> RoundSums
        requires { rank < self.now.layout.ranks }
        ensures { result ≡ sums_heard_at self.now.over (heard_of self.now rank) }
    {
        let one = &self.heard[rank as usize];
        if one.rounds == self.over + 1 {
            one.last
        } else {
            one.before
        }
    }

    /// The sums of that round over all ranks.
    fn round_sums(&self) -> RoundSums
        requires few { (round_sums self.now).sent ≤ most_arrived }
        requires few_run { (round_sums self.now).run ≤ most_arrived }
        ensures { result ≡ round_sums self.now }
    {
        let mut sent = 0;
        let mut run = 0;
        for rank in 0..self.layout.ranks() {
            let sums = self.heard_sums(rank);
            sent += sums.sent;
            run += sums.run;
        }
        RoundSums { sent, run }
    }

    /// Notes that the Total of that round was put to a rank. After that to itself, the round is over.
    fn has_put_total(&mut self, to: u32)
        requires next { IsNextTotal self.old to }
        requires counted { self.old.over < self.old.counted }
        ensures noted { self.new ≡ with_total_put self.old to }
    {
        if to == 0 {
            self.over += 1;
            self.next = 1;
        } else {
            self.next = to + 1;
        }
    }

    /// Puts the Total of that round, with these sums, to the rank that is next. It returns whether the link wasn't full.
    fn put_total<H: Handler, T: Tap, P: Post>(
        &mut self,
        comm: &Comm<H, T>,
        post: &mut P,
        to: u32,
        sums: RoundSums,
    ) -> Result<bool, CommFault>
        requires stands { Stands H.apply H.start self.old comm.now (P.state post.old) }
        requires inside { self.old.inside ≡ true }
        requires all_handed { comm.now.controls ≡ [] }
        requires first_rank { self.old.here ≡ 0 }
        requires due { IsTotalDue self.old to sums }
        ensures controls { HasPutControls (held_letters comm.now) self.old self.new (P.state post.old) (P.state post.new) }
        ensures stands { Stands H.apply H.start self.new comm.now (P.state post.new) }
        ensures full { result ≡ Ok false → (self.new ≡ self.old) × FoundFull self.old.layout.ranks (Some to) (P.state post.old) (P.state post.new) }
        ensures put { result ≡ Ok true → (self.new ≡ with_total_put self.old to) × SameFulls (P.state post.old) (P.state post.new) }
        ensures unchanged { OnErr result (self.new ≡ self.old) }
        ensures no_memory { IfErr result (λ fault. fault ≡ NoMemory) }
    {
        let total = Control::Total {
            to,
            q: self.over,
            s: sums.sent,
            r: sums.run,
        };
        if !put_letter(post, self.alloc, self.here, to, total)? {
            return Ok(false);
        }
        self.has_put_total(to);
        Ok(true)
    }

    /// Whether Totals of the present round are due: this is rank 0, which has the Counts of all ranks.
    fn has_totals_due(&self) -> bool
        requires few { (heard_of self.now 0).rounds ≤ self.now.over + 1 }
        ensures due { result ≡ true → HasTotalsDue self.now }
        ensures none { result ≡ false → self.now.known < self.now.counted → HasPutTotals self.now }
    {
        self.here == 0
            && self.over == self.known
            && self.counted > self.known
            && self.missing().is_none()
    }

    /// Puts the Totals of that round, with these sums, to the other ranks in order, and to itself last. It returns the rank
    /// to which the link was full, where one was.
    fn put_each_total<H: Handler, T: Tap, P: Post>(
        &mut self,
        comm: &Comm<H, T>,
        post: &mut P,
        sums: RoundSums,
    ) -> Result<Option<u32>, CommFault>
        requires stands { Stands H.apply H.start self.old comm.now (P.state post.old) }
        requires inside { self.old.inside ≡ true }
        requires all_handed { comm.now.controls ≡ [] }
        requires due { HasTotalsDue self.old }
        requires sums { sums ≡ round_sums self.old }
        ensures controls { HasPutControls (held_letters comm.now) self.old self.new (P.state post.old) (P.state post.new) }
        ensures stands { Stands H.apply H.start self.new comm.now (P.state post.new) }
        ensures counted { self.new.counted ≡ self.old.counted }
        ensures full { IfOk result (λ full. FoundFull self.old.layout.ranks full (P.state post.old) (P.state post.new)) }
        ensures put { result ≡ Ok None → self.new.over ≡ self.old.over + 1 }
        ensures no_memory { IfErr result (λ fault. fault ≡ NoMemory) }
    {
        let ranks = self.layout.ranks();
        for next in self.next..ranks + 1 {
            let to = destination(next, ranks);
            if !self.put_total(comm, post, to, sums)? {
                return Ok(Some(to));
            }
        }
        Ok(None)
    }

    /// Puts the Totals that are due. It returns the rank to which the link was full, where one was.
    fn put_totals<H: Handler, T: Tap, P: Post>(
        &mut self,
        comm: &Comm<H, T>,
        post: &mut P,
    ) -> Result<Option<u32>, CommFault>
        requires stands { Stands H.apply H.start self.old comm.now (P.state post.old) }
        requires inside { self.old.inside ≡ true }
        requires all_handed { comm.now.controls ≡ [] }
        ensures controls { HasPutControls (held_letters comm.now) self.old self.new (P.state post.old) (P.state post.new) }
        ensures stands { Stands H.apply H.start self.new comm.now (P.state post.new) }
        ensures counted { self.new.counted ≡ self.old.counted }
        ensures full { IfOk result (λ full. FoundFull self.old.layout.ranks full (P.state post.old) (P.state post.new)) }
        ensures put { result ≡ Ok None → self.new.known < self.new.counted → HasPutTotals self.new }
        ensures no_memory { IfErr result (λ fault. fault ≡ NoMemory) }
    {
        self.holds();
        if !self.has_totals_due() {
            return Ok(None);
        }
        let sums = self.round_sums();
        self.put_each_total(comm, post, sums)
    }

    /// Puts what is due of Counts and Totals. It returns the rank to which the link was full, where one was.
    pub(crate) fn put_controls<H: Handler, T: Tap, P: Post>(
        &mut self,
        comm: &Comm<H, T>,
        post: &mut P,
    ) -> Result<Option<u32>, CommFault>
        requires stands { Stands H.apply H.start self.old comm.now (P.state post.old) }
        requires inside { self.old.inside ≡ true }
        requires all_handed { comm.now.controls ≡ [] }
        ensures controls { HasPutControls (held_letters comm.now) self.old self.new (P.state post.old) (P.state post.new) }
        ensures stands { Stands H.apply H.start self.new comm.now (P.state post.new) }
        ensures due { IfOk result (λ full. HasPutDue (held_letters comm.now) self.new full (P.state post.old) (P.state post.new)) }
        ensures no_memory { IfErr result (λ fault. fault ≡ NoMemory) }
    {
        let full = self.put_count(comm, post)?;
        if full.is_some() {
            return Ok(full);
        }
        self.put_totals(comm, post)
    }
}
