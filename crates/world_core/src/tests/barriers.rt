//! Barriers over two nodes, while letters are forwarded and answered.
ghost use Rattle.std.specs.Prelude.{◌<◌};

use super::Run;
use super::rounds::rounds_ended;
use super::walk::{control_put, cuts_of, round_of};
use msg_codec::Control;
use std::test::*;
use ygm_route::Scheme;

impl Run {
    /// Each rank puts its Count of a round. Its next hops may still have its letters.
    fn count_all(&mut self, q: u64) -> Result<(), Fail> {
        for rank in 0..4 {
            let cuts = cuts_of(self.alloc, self.world.log(rank), rank)?;
            let (s, r) = *cuts.last().ok_or("the whole log is a cut")?;
            let count = Control::Count { rank, q, s, r };
            self.world.step(control_put(self.alloc, rank, 0, count)?)?;
        }
        Ok(())
    }

    /// A rank takes what is in its link from a rank, and forwards the letters for others.
    fn empty_link(&mut self, rank: u32, from: u32) -> Result<(), Fail>
        requires taker { rank < 4 }
        requires sender { from < 4 }
    {
        for _ in 0..self.world.link_len(from, rank) {
            self.take_on(rank, from)?;
        }
        Ok(())
    }

    /// Rank 0 puts the Totals of a round, and each rank takes its own.
    fn tell_all(&mut self, q: u64) -> Result<(), Fail> {
        for from in 0..4 {
            self.empty_link(0, from)?;
        }
        let mut all = Vec::new(self.alloc);
        for rank in 0..4 {
            all.push(cuts_of(self.alloc, self.world.log(rank), rank)?)?;
        }
        let (s, r) = round_of(&all, q as usize).ok_or("each rank has counted")?;
        for to in 0..4 {
            let total = Control::Total { to, q, s, r };
            self.world.step(control_put(self.alloc, 0, to, total)?)?;
        }
        for rank in 0..4 {
            self.empty_link(rank, 0)?;
        }
        Ok(())
    }

    /// Every letter reaches its destination.
    fn settle(&mut self) -> Result<(), Fail> {
        for _ in 0..8 {
            self.take_all()?;
        }
        Ok(())
    }

    fn round(&mut self, q: u64) -> Result<(), Fail> {
        self.count_all(q)?;
        self.tell_all(q)
    }
}

#[test]
fn a_barrier_waits_for_forwards_and_answers(rt: HostRuntime) -> Result<(), Fail> {
    for scheme in [Scheme::Direct, Scheme::Nr, Scheme::Nlnr] {
        let mut run = Run::new(rt.alloc(), scheme)?;
        // Each rank sent a letter to each. Those of rank 0 were forwarded, and all are in transit.
        run.send_all(0)?;
        run.empty_link(1, 0)?;
        run.empty_link(2, 0)?;
        run.round(0)?;
        // Rank 3 takes a letter after its Count, and answers.
        run.empty_link(3, 2)?;
        run.send_on(3, (0, 3, 16, 1))?;
        run.round(1)?;
        run.settle()?;
        run.round(2)?;
        run.round(3)?;
        assert_eq!(rt;
            rounds_ended(rt.alloc(), &run.world)?.as_slice(),
            [3].as_slice()
        );
        run.send_all(2)?;
        run.round(4)?;
        run.settle()?;
        run.round(5)?;
        run.round(6)?;
        assert_eq!(rt;
            rounds_ended(rt.alloc(), &run.world)?.as_slice(),
            [3, 6].as_slice()
        );
    }
    Ok(())
}
