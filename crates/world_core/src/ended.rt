//! Which rounds of a world ended a barrier.
ghost use Rattle.std.specs.Prelude.{◌≡◌, ◌<◌};
ghost use Rattle.world_core.specs.Counts.{counts};
ghost use Rattle.world_core.specs.Modest.{IsWorld};
ghost use Rattle.world_core.specs.Trial.{sums_of};
ghost use Rattle.world_core.specs.Wave.{EndsBarrier, ended_count, is_complete, sums_at};
ghost use Rattle.world_core.specs.World.{log_of};

use crate::World;
use crate::control_letters::{counts, own_before, run_before};
use crate::known_rounds::{Sums, ends_from};

impl World {
    /// The number of barriers that ended. A round is complete once each rank has put its Count of it. It ends its
    /// barrier if all that was sent before its Counts ran before them, the same holds of the round before, and no more
    /// was sent between the two; and if that round is of the same barrier. Rounds and barriers count from 0.
    pub fn ended_count(&self) -> u64
        ensures ended { result ≡ ended_count self.now }
        ensures sound { IsWorld self.now }
    {
        let mut ended = 0;
        let mut first: u128 = 0;
        let mut before = Sums { sent: 0, run: 0 };
        for q in 0..self.counted() {
            if !self.is_complete(q) {
                return ended;
            }
            let sums = self.sums_at(q);
            if ends_from(first, u128::from(q), before, sums) {
                ended += 1;
                first = u128::from(q) + 1;
            }
            before = sums;
        }
        ended
    }

    /// The round that ended barrier `k`.
    pub fn ended_round(&self, k: u64) -> u64
        requires { k < ended_count self.now }
        ensures round { EndsBarrier self.now k result }
        ensures sound { IsWorld self.now }
    {
        let mut ended = 0;
        let mut first: u128 = 0;
        let mut before = Sums { sent: 0, run: 0 };
        for q in 0..self.counted() {
            let sums = self.sums_at(q);
            if ends_from(first, u128::from(q), before, sums) {
                if ended == k {
                    return q;
                }
                ended += 1;
                first = u128::from(q) + 1;
            }
            before = sums;
        }
        ended
    }

    /// The number of Counts that rank 0 put: no more rounds are complete.
    fn counted(&self) -> u64
        ensures counts { result ≡ counts (log_of self.now 0) }
        ensures sound { IsWorld self.now }
    {
        // There is a rank 0.
        let _ = self.ranks();
        counts(self.log(0))
    }

    /// Whether each rank has put its Count of a round.
    fn is_complete(&self, q: u64) -> bool
        ensures { result ≡ is_complete self.now q }
    {
        for rank in 0..self.ranks() {
            if counts(self.log(rank)) <= q {
                return false;
            }
        }
        true
    }

    /// What all ranks sent and ran before their Counts of a round. A rank that hasn't put it gives all of its log.
    fn sums_at(&self, q: u64) -> Sums
        ensures { sums_of result ≡ sums_at self.now q }
    {
        let mut sums = Sums { sent: 0, run: 0 };
        for rank in 0..self.ranks() {
            let log = self.log(rank);
            sums.sent += own_before(log, rank, q);
            sums.run += run_before(log, rank, q);
        }
        sums
    }
}
