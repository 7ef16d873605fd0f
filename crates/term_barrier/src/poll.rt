//! A rank that is inside a barrier polls it until it has left.
ghost use Rattle.std.specs.Prelude.{◌≡◌, ◌<◌, ℕ, Err, true, false, None, Some, is_err, IfOk, IfErr, IsTrue, OnOk};
ghost use Rattle.world_core.specs.Post.{PostState};
ghost use Rattle.comm_rank.specs.declared.fault.CommFault.TheVariants.{NoMemory, Stopped};
ghost use Rattle.comm_rank.specs.Fault.{IfStopped, UnlessStopped};
ghost use Rattle.comm_rank.specs.Rank.{IsSameRank, Rank, Worked as RankWorked, held_letters, local_of};
ghost use Rattle.comm_rank.specs.Held.{NoneOpen};
ghost use Rattle.comm_rank.specs.Turns.{HasEnded, HasHalted, KeepsPost};
ghost use Rattle.term_barrier.specs.declared.polled.Waiting.TheVariants.{Worked, Link};
ghost use Rattle.term_barrier.specs.Polls.{AfterTurn, BarrierEnded, BarrierFailed, IsAnswer, IsOtherReason, IsSameBarrier, PollEnded, PollFailed, PollHalted, PolledWaiting, PutsDue, Stands, either};

use crate::{Barrier, Polled, Waiting};
use comm_rank::{Comm, CommFault, Handler, Turn};
use std::sync::Wait;
use world_core::Post;
use ygm_taps::Tap;

impl Barrier {
    /// Closes the rank's batches, gives it a turn, and then puts what is due of Counts and Totals. It returns whether the rank has left its
    /// barrier, and if not, why.
    ///
    /// A rank puts its Count of a round once it knows the round before, holds no letter and none waits to run. Rank 0 puts
    /// the Totals of a round once it has the Counts of all ranks. A rank that put a Count and took no letter for itself
    /// since may be polled only while it holds no letter of its own, as where it sends only outside barriers.
    ///
    /// All ranks enter the same barriers in the same order; otherwise a rank may wait for ever.
    ///
    /// It fails as `Comm::turn` does, and then the barrier is unchanged. Where it has no memory to put a Count or a Total, it
    /// returns `NoMemory`; the control letters that it took stay taken in. After a fault the rank is stopped, and unless it
    /// met the stop it has raised it.
    pub fn poll<H: Handler, T: Tap, P: Post>(
        &mut self,
        comm: &mut Comm<H, T>,
        post: &mut P,
    ) -> Result<Polled, CommFault>
        requires going { comm.old.stopped ≡ false }
        requires stands { Stands H.apply H.start self.old comm.old (P.state post.old) }
        requires inside { self.old.inside ≡ true }
        ensures ended { IfOk result (PollEnded H.apply H.start self.old self.new comm.old comm.new (P.state post.old) (P.state post.new)) }
        ensures halted { IfErr result (λ fault. IfStopped fault (PollHalted self.old self.new comm.old comm.new (P.state post.old) (P.state post.new))) }
        ensures failed { IfErr result (λ fault. UnlessStopped fault (PollFailed H.apply H.start self.old self.new comm.old comm.new (P.state post.old) (P.state post.new) fault)) }
        ensures sees_the_stop { (rank : ℕ) → IsTrue ((P.state post.old).serves rank) → (P.state post.old).raised rank ≡ true → result ≡ Err Stopped }
        ensures rank { RankWorked (record comm.old { stopped = is_err result }) comm.new }
        ensures post { KeepsPost comm.old (P.state post.old) (P.state post.new) }
        ensures barrier { IsSameBarrier self.old self.new }
    {
        let Ok(()) = comm.flush() else {
            unreachable!();
        };
        self.poll_flushed(comm, post)
    }

    /// Enters the next barrier, and polls until the rank has left it. It returns the number of the barrier and the round
    /// that ended it, and fails as `poll` does. It waits for ever where another rank doesn't enter the barrier, or where no
    /// round is left.
    pub fn barrier<R: Wait, H: Handler, T: Tap, P: Post>(
        &mut self,
        rt: &R,
        comm: &mut Comm<H, T>,
        post: &mut P,
    ) -> Result<(u64, u64), CommFault>
        requires going { comm.old.stopped ≡ false }
        requires stands { Stands H.apply H.start self.old comm.old (P.state post.old) }
        requires outside { self.old.inside ≡ false }
        ensures ended { IfOk result (λ what. BarrierEnded H.apply H.start self.old self.new comm.old comm.new (P.state post.old) (P.state post.new) what.0 what.1) }
        ensures failed { IfErr result (BarrierFailed H.apply H.start (record self.old { inside = true }) self.new comm.old comm.new (P.state post.old) (P.state post.new)) }
        ensures sees_the_stop { (rank : ℕ) → IsTrue ((P.state post.old).serves rank) → (P.state post.old).raised rank ≡ true → result ≡ Err Stopped }
        ensures rank { RankWorked (record comm.old { stopped = is_err result }) comm.new }
        ensures post { KeepsPost comm.old (P.state post.old) (P.state post.new) }
        ensures barrier { IsSameBarrier self.old self.new }
    {
        self.enter(comm);
        for _ in rt.forever() {
            if let Polled::Left { barrier, round } = self.poll(comm, post)? {
                return Ok((barrier, round));
            }
        }
        unreachable!()
    }

    /// A poll of a rank whose batches are closed.
    fn poll_flushed<H: Handler, T: Tap, P: Post>(
        &mut self,
        comm: &mut Comm<H, T>,
        post: &mut P,
    ) -> Result<Polled, CommFault>
        requires going { comm.old.stopped ≡ false }
        requires flushed { (to : ℕ) → to < comm.old.layout.ranks → NoneOpen comm.old.held to }
        requires stands { Stands H.apply H.start self.old comm.old (P.state post.old) }
        requires inside { self.old.inside ≡ true }
        ensures ended { IfOk result (PollEnded H.apply H.start self.old self.new comm.old comm.new (P.state post.old) (P.state post.new)) }
        ensures halted { IfErr result (λ fault. IfStopped fault (HasHalted comm.old comm.new (P.state post.old) (P.state post.new) × (self.new ≡ self.old))) }
        ensures failed { IfErr result (λ fault. UnlessStopped fault (PollFailed H.apply H.start self.old self.new comm.old comm.new (P.state post.old) (P.state post.new) fault)) }
        ensures sees_the_stop { (rank : ℕ) → IsTrue ((P.state post.old).serves rank) → (P.state post.old).raised rank ≡ true → result ≡ Err Stopped }
        ensures rank { RankWorked (record comm.old { stopped = is_err result }) comm.new }
        ensures post { KeepsPost comm.old (P.state post.old) (P.state post.new) }
        ensures barrier { IsSameBarrier self.old self.new }
    {
        let turn = comm.turn(post)?;
        let polled = self.after_turn(comm, post, turn);
        if polled.is_err() {
            comm.halt(post);
        }
        polled
    }

    /// What a poll does after its turn: it takes in the control letters, leaves where the barrier ended, and otherwise
    /// puts what is due.
    fn after_turn<H: Handler, T: Tap, P: Post>(
        &mut self,
        comm: &mut Comm<H, T>,
        post: &mut P,
        turn: Turn,
    ) -> Result<Polled, CommFault>
        requires stands { Stands H.apply H.start self.old comm.old (P.state post.old) }
        requires inside { self.old.inside ≡ true }
        ensures after { AfterTurn comm.old comm.new (P.state post.old) (P.state post.new) }
        ensures stands { Stands H.apply H.start self.new comm.new (P.state post.new) }
        ensures answers { (one : Rank H) (before : PostState) → IsSameRank one comm.old →
            ((to : ℕ) → to < one.layout.ranks → NoneOpen one.held to) → HasEnded H.apply H.start one comm.old before (P.state post.old) turn →
            IfOk result (IsAnswer self.old self.new (local_of comm.new ((P.state post.new).log comm.new.here)) before (P.state post.new) turn) }
        ensures due { OnOk result (self.new.inside ≡ true → PutsDue (held_letters comm.new) self.new (P.state post.old) (P.state post.new)) }
        ensures no_memory { IfErr result (λ fault. (fault ≡ NoMemory) × PolledWaiting self.old self.new) }
        ensures barrier { IsSameBarrier self.old self.new }
    {
        self.holds();
        let left = self.left;
        self.hear_all(comm);
        if self.left > left {
            self.inside = false;
            return Ok(Polled::Left {
                barrier: left,
                round: self.known - 1,
            });
        }
        self.holds();
        let put = self.put_controls(comm, post);
        self.holds();
        let full = put?;
        Ok(Polled::Waiting(self.why(turn, full)))
    }

    /// Why the rank waits, after a turn and puts that found this link full, or none.
    fn why(&self, turn: Turn, full: Option<u32>) -> Waiting
        ensures worked { 0 < turn.took → result ≡ Worked turn.took }
        ensures link { (to : ℕ) → turn.took ≡ 0 → either turn.full full ≡ Some to → result ≡ Link to }
        ensures other { turn.took ≡ 0 → either turn.full full ≡ None → IsOtherReason self.now result }
    {
        if turn.took > 0 {
            return Waiting::Worked { took: turn.took };
        }
        if let Some(to) = turn.full.or(full) {
            return Waiting::Link { to };
        }
        if self.counted <= self.known {
            return Waiting::Spent { round: self.rounds };
        }
        let round = self.known;
        if self.here == 0 && self.over <= self.known {
            if let Some(rank) = self.missing() {
                return Waiting::Count { rank, round };
            }
        }
        Waiting::Total { round }
    }
}
