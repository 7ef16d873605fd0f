//! All ranks of a world on one thread, with their barriers.
ghost use Rattle.std.specs.Prelude.{◌≡◌, ◌≤◌, ◌<◌, IfOk, None, false, []};
ghost use Rattle.world_core.specs.Plain.{state_of};
ghost use Rattle.world_core.specs.Post.{PostState, SamePost};
ghost use Rattle.comm_rank.specs.Rank.{fresh_rank};
ghost use Rattle.term_barrier.specs.Barriers.{fresh_barrier};
ghost use Rattle.term_barrier.specs.Polls.{Stands};

use super::relay::Relay;
use crate::{Barrier, Polled};
use comm_rank::{Comm, CommFault, Handler, Turn};
use msg_codec::{Body, Control, control_of};
use std::alloc::Global;
use std::fmt::Debug;
use std::marker::Model;
use std::process::Abort;
use std::sync::Wait;
use std::test::*;
use world_core::{Entry, Limits, PlainLinks};
use ygm_route::{Layout, Scheme};
use ygm_taps::QuietTap;

// The most bytes of a batch of more than one letter.
const BUFFER: u32 = 64;

// The length of a body. Two letters with such bodies don't share a batch.
const LONG: usize = 40;

// Fails the test unless both are equal. The macro would be proved anew wherever it stands.
pub(super) fn same<T: PartialEq + Debug + Drop>(rt: &impl Abort, found: T, wanted: T) {
    assert_eq!(rt; found, wanted);
}

// A value in a box. Its owner drops it by one call, whatever it holds.
fn boxed<T: Drop>(alloc: Global, value: T) -> Result<Box<T>, Fail>
    ensures { IfOk result (λ boxed. boxed.value ≡ value) }
{
    Ok(
        Box::new(alloc, value)
            .ok()
            .ok_or("there is memory for a box")?,
    )
}

// A rank with a quiet tap, and its barrier.
#[derive(Drop)]
pub(super) struct Member<H: Handler> {
    comm: Comm<H, QuietTap>,
    barrier: Barrier,
}

// A rank that has sent and run nothing, and was never inside a barrier.
fn member_of(
    alloc: Global,
    layout: Layout,
    scheme: Scheme,
    here: u32,
    limits: Limits,
) -> Result<Member<Relay>, Fail>
    requires below { here < layout.ranks }
    ensures rank { IfOk result (λ member. member.comm ≡ fresh_rank layout scheme here limits.letters [] None) }
    ensures barrier { IfOk result (λ member. member.barrier ≡ fresh_barrier layout here limits.rounds) }
{
    let made = Comm::new(
        alloc,
        layout,
        scheme,
        here,
        BUFFER,
        limits,
        Relay::new(alloc),
        QuietTap,
    );
    Ok(Member {
        comm: made.ok().ok_or("there is memory for a rank")?,
        barrier: Barrier::new(alloc, layout, here, limits)?,
    })
}

impl<H: Handler> Member<H> {
    // Outside a barrier, it sends a letter, and closes its batch.
    fn send(&mut self, to: u32, tag: u8, body: Body) -> Result<(), Fail>
        ensures stands { (post : PostState) →
            (self.old.comm.stopped ≡ false → Stands H.apply H.start self.old.barrier self.old.comm post) →
            self.new.comm.stopped ≡ false → Stands H.apply H.start self.new.barrier self.new.comm post }
        ensures here { self.new.comm.here ≡ self.old.comm.here }
    {
        if self.comm.is_stopped() || self.barrier.inside() {
            return Err("a rank outside that isn't stopped sends".into());
        }
        if to >= self.comm.ranks() || tag >= 240 {
            return Err("a data letter is for a rank of the world".into());
        }
        self.comm.send(to, tag, body)?;
        self.comm.flush()?;
        Ok(())
    }

    fn enter(&mut self) -> Result<(), Fail>
        ensures stands { (post : PostState) →
            (self.old.comm.stopped ≡ false → Stands H.apply H.start self.old.barrier self.old.comm post) →
            self.new.comm.stopped ≡ false → Stands H.apply H.start self.new.barrier self.new.comm post }
        ensures here { self.new.comm.here ≡ self.old.comm.here }
    {
        if self.comm.is_stopped() || self.barrier.inside() {
            return Err("a rank outside that isn't stopped enters".into());
        }
        self.barrier.enter(&mut self.comm);
        Ok(())
    }

    // A turn that is no poll.
    fn turn(&mut self, links: &mut PlainLinks) -> Result<Turn, Fail>
        requires stands { self.old.comm.stopped ≡ false →
            Stands H.apply H.start self.old.barrier self.old.comm (state_of links.old) }
        ensures stands { self.new.comm.stopped ≡ false →
            Stands H.apply H.start self.new.barrier self.new.comm (state_of links.new) }
        ensures here { self.new.comm.here ≡ self.old.comm.here }
        ensures post { SamePost self.old.comm.here (state_of links.old) (state_of links.new) }
    {
        if self.comm.is_stopped() {
            return Err("a rank that isn't stopped takes a turn".into());
        }
        Ok(self.comm.turn(links)?)
    }

    fn poll(&mut self, links: &mut PlainLinks) -> Result<Result<Polled, CommFault>, Fail>
        requires stands { self.old.comm.stopped ≡ false →
            Stands H.apply H.start self.old.barrier self.old.comm (state_of links.old) }
        ensures stands { self.new.comm.stopped ≡ false →
            Stands H.apply H.start self.new.barrier self.new.comm (state_of links.new) }
        ensures here { self.new.comm.here ≡ self.old.comm.here }
        ensures post { SamePost self.old.comm.here (state_of links.old) (state_of links.new) }
    {
        if self.comm.is_stopped() || !self.barrier.inside() {
            return Err("a rank inside that isn't stopped polls".into());
        }
        Ok(self.barrier.poll(&mut self.comm, links))
    }

    // A whole barrier.
    fn pass<R: Wait>(&mut self, rt: &R, links: &mut PlainLinks) -> Result<(u64, u64), Fail>
        requires stands { self.old.comm.stopped ≡ false →
            Stands H.apply H.start self.old.barrier self.old.comm (state_of links.old) }
        ensures stands { self.new.comm.stopped ≡ false →
            Stands H.apply H.start self.new.barrier self.new.comm (state_of links.new) }
        ensures here { self.new.comm.here ≡ self.old.comm.here }
        ensures post { SamePost self.old.comm.here (state_of links.old) (state_of links.new) }
    {
        if self.comm.is_stopped() || self.barrier.inside() {
            return Err("a rank outside that isn't stopped enters".into());
        }
        Ok(self.barrier.barrier(rt, &mut self.comm, links)?)
    }
}

// What is large is in a `Vec` and a `Box`. A rank that isn't stopped stands at the links with its barrier.
#[derive(Drop)]
pub(super) struct Ranks<H: Handler> {
    alloc: Global,
    layout: Layout,
    members: Vec<Member<H>>,
    links: Box<PlainLinks>,
}

impl<H: Handler> Model for Ranks<H> {
    ghost use Rattle.std.specs.Prelude.{◌≡◌, ℕ, Some, false, length, slice_get};
    ghost use Rattle.world_core.specs.Plain.{Plain, state_of};
    ghost use Rattle.term_barrier.specs.declared.tests.ranks.Member.{Member};
    ghost use Rattle.term_barrier.specs.Polls.{Stands};

    ghost Value = { Plain };

    ghost view = { λ ranks. ranks.links.value };

    ghost invariant = { λ ranks. (ranks.links.value.world.layout ≡ ranks.layout)
        × (length ranks.members.items ≡ ranks.layout.ranks)
        × ((rank : ℕ) (member : Member H) → slice_get ranks.members.items rank ≡ Some member →
        (member.comm.here ≡ rank) × (member.comm.stopped ≡ false →
        Stands H.apply H.start member.barrier member.comm (state_of ranks.links.value))) };
}

// The ranks of a world, its links, which hold so many batches, and limits.
pub(super) fn world_of(
    alloc: Global,
    layout: Layout,
    scheme: Scheme,
    ring: u32,
    limits: Limits,
) -> Result<Ranks<Relay>, Fail>
    requires ring { 1 ≤ ring }
{
    let links = PlainLinks::new(alloc, layout, scheme, ring, limits)?;
    let links = boxed(alloc, links)?;
    let mut members = Vec::new(alloc);
    for here in 0..layout.ranks() {
        members.push(member_of(alloc, layout, scheme, here, limits)?)?;
    }
    Ok(Ranks {
        alloc,
        layout,
        members,
        links,
    })
}

// The ranks of a world of so many, whose letters go straight to their destinations.
pub(super) fn ranks_of(
    alloc: Global,
    ranks: u32,
    ring: u32,
    limits: Limits,
) -> Result<Ranks<Relay>, Fail>
    requires ring { 1 ≤ ring }
{
    world_of(alloc, Layout::new(ranks, 1)?, Scheme::Direct, ring, limits)
}

// How many letters a rank sent, and how many ran there.
pub(super) type Sums = (u64, u64);

impl<H: Handler> Ranks<H> {
    fn member(&self, rank: u32) -> Result<&Member<H>, Fail> {
        Ok(
            self.members
                .get(rank as usize)
                .ok_or("there is such a rank")?,
        )
    }

    pub(super) fn is_stopped(&self, rank: u32) -> Result<bool, Fail> {
        Ok(self.member(rank)?.comm.is_stopped())
    }

    // Whether the rank is inside a barrier.
    fn is_inside(&self, rank: u32) -> Result<bool, Fail> {
        Ok(self.member(rank)?.barrier.inside())
    }

    pub(super) fn sums(&self, rank: u32) -> Result<Sums, Fail> {
        let comm = &self.member(rank)?.comm;
        Ok((comm.sent_count(), comm.run_count()))
    }

    fn send_one(&mut self, from: u32, to: u32, tag: u8, first: u8) -> Result<(), Fail> {
        let body = Body::of(self.alloc, &[first; LONG])?;
        if from as usize >= self.members.len() {
            return Err("a rank of the world sends".into());
        }
        self.members[from as usize].send(to, tag, body)
    }

    // Sends a letter for each byte of a text.
    pub(super) fn send(&mut self, from: u32, to: u32, tag: u8, text: &[u8]) -> Result<(), Fail> {
        for first in text {
            self.send_one(from, to, tag, *first)?;
        }
        Ok(())
    }

    // A turn that is no poll.
    pub(super) fn turn(&mut self, rank: u32) -> Result<Turn, Fail> {
        if rank as usize >= self.members.len() {
            return Err("a rank of the world takes a turn".into());
        }
        self.members[rank as usize].turn(&mut self.links)
    }

    pub(super) fn enter(&mut self, rank: u32) -> Result<(), Fail> {
        if rank as usize >= self.members.len() {
            return Err("a rank of the world enters".into());
        }
        self.members[rank as usize].enter()
    }

    pub(super) fn enter_all(&mut self) -> Result<(), Fail> {
        for rank in 0..self.layout.ranks() {
            self.enter(rank)?;
        }
        Ok(())
    }

    pub(super) fn try_poll(&mut self, rank: u32) -> Result<Result<Polled, CommFault>, Fail> {
        if rank as usize >= self.members.len() {
            return Err("a rank of the world polls".into());
        }
        self.members[rank as usize].poll(&mut self.links)
    }

    pub(super) fn poll(&mut self, rank: u32) -> Result<Polled, Fail> {
        Ok(self.try_poll(rank)??)
    }

    // A whole barrier.
    pub(super) fn pass<R: Wait>(&mut self, rt: &R, rank: u32) -> Result<(u64, u64), Fail> {
        if rank as usize >= self.members.len() {
            return Err("a rank of the world passes a barrier".into());
        }
        self.members[rank as usize].pass(rt, &mut self.links)
    }

    // All ranks inside poll in turn, until each has left. It returns the numbers of the barriers that they left and
    // the rounds that ended them, in the order in which they left.
    pub(super) fn leave_all(&mut self) -> Result<Vec<(u64, u64)>, Fail> {
        let mut left = Vec::new(self.alloc);
        for _ in 0..500 {
            for rank in 0..self.layout.ranks() {
                if self.is_inside(rank)? {
                    if let Polled::Left { barrier, round } = self.poll(rank)? {
                        left.push((barrier, round))?;
                    }
                }
            }
            if left.len() >= self.layout.ranks() as usize {
                return Ok(left);
            }
        }
        Err("each rank leaves within 500 polls".into())
    }

    // The rounds that ended barriers, by the logs of all ranks.
    pub(super) fn rounds_ended(&self) -> Result<Vec<u64>, Fail> {
        let mut rounds = Vec::new(self.alloc);
        let world = self.links.world();
        for k in 0..world.ended_count() {
            rounds.push(world.ended_round(k))?;
        }
        Ok(rounds)
    }

    // How many Counts a rank put.
    pub(super) fn counts(&self, rank: u32) -> Result<u64, Fail> {
        if rank >= self.layout.ranks() {
            return Err("a rank of the world counts".into());
        }
        let mut counts: u64 = 0;
        for entry in self.links.world().log(rank) {
            if is_count(entry) {
                counts = counts.saturating_add(1);
            }
        }
        Ok(counts)
    }

    // How many letters of others a rank put.
    pub(super) fn forwarded(&self, rank: u32) -> Result<u64, Fail> {
        if rank >= self.layout.ranks() {
            return Err("a rank of the world forwards".into());
        }
        let mut forwarded: u64 = 0;
        for entry in self.links.world().log(rank) {
            if is_of_other(entry, rank) {
                forwarded = forwarded.saturating_add(1);
            }
        }
        Ok(forwarded)
    }
}

impl Ranks<Relay> {
    // The first bytes of the letters that ran at a rank.
    pub(super) fn seen(&self, rank: u32) -> Result<&[u8], Fail> {
        Ok(self.member(rank)?.comm.contents().seen())
    }
}

fn is_count(entry: &Entry) -> bool {
    match entry {
        Entry::Put { letters, .. } => {
            letters.count() == 1
                && matches!(
                    control_of(letters.letter_at(0)),
                    Some(Control::Count { .. })
                )
        }
        Entry::Took { .. } => false,
    }
}

// Whether the entry puts one letter, which another rank sent.
fn is_of_other(entry: &Entry, rank: u32) -> bool {
    match entry {
        Entry::Put { letters, .. } => letters.count() == 1 && letters.letter_at(0).from != rank,
        Entry::Took { .. } => false,
    }
}
