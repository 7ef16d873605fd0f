//! What a barrier was told of rounds.
ghost use Rattle.std.specs.Prelude.{◌≡◌, ◌+◌, ◌<◌, ◌^◌};
ghost use Rattle.world_core.specs.Rounds.{agree};
ghost use Rattle.term_barrier.specs.Barriers.{heard_more, none_heard};

use std::marker::Model;

/// The sums of a round: how many letters were sent, and how many ran.
#[derive(Clone, Copy)]
pub(crate) struct RoundSums {
    pub(crate) sent: u64,
    pub(crate) run: u64,
}

impl Model for RoundSums {
    ghost use Rattle.world_core.specs.Rounds.{Sums};

    ghost Value = { Sums };

    ghost view = { λ sums. record { sent = sums.sent; run = sums.run } };

    ghost inverse = { λ sums. record { sent = sums.sent; run = sums.run } };
}

impl RoundSums {
    /// No letters.
    pub(crate) const NONE: RoundSums = RoundSums { sent: 0, run: 0 };

    /// Whether two rounds have the same sums, and all that was sent in each ran.
    pub(crate) fn agrees(self, other: RoundSums) -> bool
        ensures { result ≡ agree self other }
    {
        self.sent == self.run && other.sent == other.run && self.sent == other.sent
    }
}

/// What was heard of one rank: how many of its Counts were handed over, and the sums of the last two.
#[derive(Clone, Copy)]
pub(crate) struct Heard {
    pub(crate) rounds: u64,
    pub(crate) last: RoundSums,
    pub(crate) before: RoundSums,
}

impl Heard {
    /// Nothing.
    pub(crate) const NONE: Heard = Heard {
        rounds: 0,
        last: RoundSums::NONE,
        before: RoundSums::NONE,
    };

    /// Adds the sums of one more Count.
    pub(crate) fn hear(&mut self, sums: RoundSums)
        requires room { self.old.rounds + 1 < 2 ^ 64 }
        ensures { self.new ≡ heard_more self.old sums }
    {
        *self = Heard {
            rounds: self.rounds + 1,
            last: sums,
            before: self.last,
        };
    }
}
