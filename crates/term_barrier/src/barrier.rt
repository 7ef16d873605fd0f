//! The barrier of one rank.
ghost use Rattle.std.specs.Prelude.{◌≡◌, ◌<◌, true, false, [], ◌∷◌, IfOk};
ghost use Rattle.msg_codec.specs.Control.{letter_of_control};
ghost use Rattle.msg_codec.specs.declared.control.Control.TheVariants.{Count, Total};
ghost use Rattle.term_barrier.specs.Barriers.{HasRoom, InRange, fresh_barrier, with_letter, with_letters, with_total};

use crate::heard::{Heard, RoundSums};
use comm_rank::{Comm, Handler};
use msg_codec::Control;
use std::alloc::{AllocError, Global};
use std::marker::Model;
use world_core::Limits;
use ygm_route::Layout;
use ygm_taps::Tap;

/// The barriers of one rank, one after another. A barrier ends once all letters that ranks sent before they entered it have
/// run, and all that handlers sent in turn. Ranks find that out by rounds, as in Mattern's counting: in a round each rank
/// counts the letters that it sent and ran, and rank 0 adds the counts up. A barrier ends at the second of two successive
/// rounds of it with the same sums, where as many letters ran as were sent.
#[derive(Drop)]
pub struct Barrier {
    pub(crate) alloc: Global,
    pub(crate) layout: Layout,
    pub(crate) here: u32,
    pub(crate) rounds: u64,
    pub(crate) inside: bool,
    pub(crate) left: u64,
    pub(crate) counted: u64,
    pub(crate) known: u64,
    pub(crate) first: u64,
    pub(crate) last: RoundSums,
    pub(crate) over: u64,
    pub(crate) next: u32,
    pub(crate) heard: Vec<Heard>,
}

impl Model for Barrier {
    ghost use Rattle.term_barrier.specs.Barriers.{BarrierState, InRange};

    ghost Value = { BarrierState };

    ghost view = { λ one. record { layout = one.layout; here = one.here; rounds = one.rounds; inside = one.inside; left = one.left; counted = one.counted; known = one.known; first = one.first; last = one.last; over = one.over; next = one.next; heard = one.heard.items } };

    ghost invariant = { λ one. InRange (record { layout = one.layout; here = one.here; rounds = one.rounds; inside = one.inside; left = one.left; counted = one.counted; known = one.known; first = one.first; last = one.last; over = one.over; next = one.next; heard = one.heard.items }) };
}

impl Barrier {
    /// The barrier of rank `here`, which was never entered. It takes from `alloc` all that rounds need.
    pub fn new(
        alloc: Global,
        layout: Layout,
        here: u32,
        limits: Limits,
    ) -> Result<Barrier, AllocError>
        requires below { here < layout.ranks }
        ensures made { IfOk result (λ barrier. barrier ≡ fresh_barrier layout here limits.rounds) }
    {
        Ok(Barrier {
            alloc,
            layout,
            here,
            rounds: limits.rounds,
            inside: false,
            left: 0,
            counted: 0,
            known: 0,
            first: 0,
            last: RoundSums::NONE,
            over: 0,
            next: 1,
            heard: vec![in alloc; Heard::NONE; layout.ranks() as usize]?,
        })
    }

    /// Begins the next barrier. Letters that the rank holds may still be held: polls put them before the rank counts. The
    /// rank sends no more by itself until it has left.
    pub fn enter<H: Handler, T: Tap>(&mut self, comm: &mut Comm<H, T>)
        requires going { comm.old.stopped ≡ false }
        requires outside { self.old.inside ≡ false }
        ensures inside { self.new ≡ record self.old { inside = true } }
        ensures unchanged { comm.new ≡ comm.old }
    {
        let _ = &comm;
        self.inside = true;
    }

    /// Whether it was entered and not left since.
    pub fn inside(&self) -> bool
        ensures { result ≡ self.now.inside }
    {
        self.inside
    }

    /// Does nothing, and states what is always true: among others, that it counted no more rounds than it may.
    pub fn holds(&self)
        ensures in_range { InRange self.now }
    {
        let _ = &self.alloc;
    }

    /// Takes in all control letters that the rank took and that weren't handed over yet.
    pub(crate) fn hear_all<H: Handler, T: Tap>(&mut self, comm: &mut Comm<H, T>)
        requires room { HasRoom self.old comm.old.controls }
        ensures heard { self.new ≡ with_letters self.old comm.old.controls }
        ensures handed_over { comm.new ≡ record comm.old { controls = [] } }
    {
        while let Some(control) = comm.next_control() {
            self.hear(control);
        }
    }

    /// Takes in a control letter.
    fn hear(&mut self, control: Control)
        requires room { HasRoom self.old (letter_of_control control ∷ []) }
        ensures heard { self.new ≡ with_letter self.old (letter_of_control control) }
    {
        match control {
            Control::Count { rank, q, s, r } => self.hear_count(rank, q, s, r),
            Control::Total { to, q, s, r } => self.hear_total(to, q, s, r),
        }
    }

    /// Takes in a Count. That of a rank which isn't one of its world is ignored.
    fn hear_count(&mut self, rank: u32, q: u64, s: u64, r: u64)
        requires room { HasRoom self.old (letter_of_control (Count rank q s r) ∷ []) }
        ensures heard { self.new ≡ with_letter self.old (letter_of_control (Count rank q s r)) }
    {
        let _ = q;
        if (rank as usize) < self.heard.len() {
            self.heard[rank as usize].hear(RoundSums { sent: s, run: r });
        }
    }

    /// Takes in a Total. That to another rank is ignored.
    fn hear_total(&mut self, to: u32, q: u64, s: u64, r: u64)
        requires room { HasRoom self.old (letter_of_control (Total to q s r) ∷ []) }
        ensures heard { self.new ≡ with_letter self.old (letter_of_control (Total to q s r)) }
    {
        let _ = q;
        if to == self.here {
            self.know(RoundSums { sent: s, run: r });
        }
    }

    /// Takes in the sums of the next round, which ends the barrier or not.
    fn know(&mut self, sums: RoundSums)
        requires room { self.old.known < self.old.counted }
        ensures known { self.new ≡ with_total self.old sums }
    {
        if self.first < self.known && self.last.agrees(sums) {
            self.left += 1;
            self.first = self.known + 1;
        }
        self.known += 1;
        self.last = sums;
    }
}
