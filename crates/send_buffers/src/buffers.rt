//! The letters that a rank holds until its links take them.
ghost use Rattle.std.specs.Prelude.{◌≡◌, ◌<◌, ◌≤◌, ℕ, List, true, false, [], length, map, replicate, slice_index_or, IfOk, IfSome, IsNone, IsOk, OnOk, OnErr};
ghost use Rattle.msg_codec.specs.Letter.{letter_of};
ghost use Rattle.ygm_route.specs.Layout.{IsLayout};
ghost use Rattle.send_buffers.specs.Buffers.{AreRouted, IsBatchFor, closed_up, empty_queue, letters_in, queue_at, queued};
ghost use Rattle.send_buffers.specs.Calls.{HandsOut, InPlace, empty_buffers, with_batch_back, with_letter};
ghost use Rattle.send_buffers.specs.Stored.{held_in};

use crate::hop_queue::HopQueue;
use msg_codec::{Batch, LetterRef};
use std::alloc::{AllocError, Global};
use std::marker::Model;
use ygm_route::{Layout, Scheme, next_hop};

/// The least limit of a batch, in bytes.
pub const MIN_BUFFER: u32 = 64;

/// The greatest limit of a batch, in bytes.
pub const MAX_BUFFER: u32 = 65_536;

/// What a rank holds for each next hop: letters gather in an open batch, which is closed before it would have more than
/// so many bytes. A letter longer than that is alone in its batch.
#[derive(Drop)]
pub struct Buffers {
    alloc: Global,
    layout: Layout,
    scheme: Scheme,
    here: u32,
    limit: u32,
    queues: Vec<HopQueue>,
}

impl Model for Buffers {
    ghost use Rattle.send_buffers.specs.Buffers.{AreRouted, Buffered};
    ghost use Rattle.send_buffers.specs.Stored.{buffered};

    ghost Value = { Buffered };

    ghost view = { λ b. buffered b.layout b.scheme b.here b.limit b.queues.items };

    ghost invariant = { λ b. AreRouted (buffered b.layout b.scheme b.here b.limit b.queues.items) };
}

/// A queue for each of so many ranks.
fn empty_queues(alloc: Global, ranks: u32) -> Result<Vec<HopQueue>, AllocError>
    ensures { IfOk result (λ queues. held_in queues.items ≡ replicate ranks empty_queue) }
{
    let mut queues = Vec::new(alloc);
    for _ in 0..ranks {
        queues.push(HopQueue::new(alloc))?;
    }
    Ok(queues)
}

/// Closes the open batch of each queue.
fn close_up(alloc: Global, queues: &mut Vec<HopQueue>)
    ensures { held_in queues.new.items ≡ map closed_up (held_in queues.old.items) }
{
    for at in 0..queues.len() {
        queues[at].close_up(alloc);
    }
}

impl Buffers {
    /// Buffers that hold nothing, of rank number `here`, whose batches have at most `limit` bytes.
    pub fn new(
        alloc: Global,
        layout: Layout,
        scheme: Scheme,
        here: u32,
        limit: u32,
    ) -> Result<Buffers, AllocError>
        requires within { here < layout.ranks }
        requires least { MIN_BUFFER ≤ limit }
        requires most { limit ≤ MAX_BUFFER }
        ensures { IfOk result (λ buffers. buffers ≡ empty_buffers layout scheme here limit buffers.room) }
    {
        Ok(Buffers {
            alloc,
            layout,
            scheme,
            here,
            limit,
            queues: empty_queues(alloc, layout.ranks())?,
        })
    }

    /// Holds a copy of the letter, after the others for its next hop.
    pub fn add(&mut self, letter: LetterRef<'_>) -> Result<(), AllocError>
        requires destination { letter.to < self.old.layout.ranks }
        requires sender { letter.from < self.old.layout.ranks }
        ensures added { OnOk result (self.new.queues ≡ with_letter self.old (letter_of letter.entry)) }
        ensures refused { OnErr result (self.new.queues ≡ self.old.queues) }
        ensures place { InPlace self.old self.new }
    {
        let next = next_hop(&self.layout, self.scheme, self.here, letter.to);
        self.queues[next as usize].add(self.alloc, self.limit as usize, letter)
    }

    /// Closes each batch that has letters, so that it can go out. It takes no memory and never fails: a batch keeps memory to
    /// be closed from its first letter on.
    pub fn flush_all(&mut self) -> Result<(), AllocError>
        ensures closed { self.new.queues ≡ map closed_up self.old.queues }
        ensures never_fails { IsOk result }
        ensures place { InPlace self.old self.new }
    {
        close_up(self.alloc, &mut self.queues);
        Ok(())
    }

    /// Removes and returns the oldest closed batch for a next hop. It takes no memory.
    pub fn next_out(&mut self, to: u32) -> Option<Batch>
        requires { to < self.old.layout.ranks }
        ensures none { IsNone result → (queue_at self.old.queues to).closed ≡ [] }
        ensures unchanged { IsNone result → self.new ≡ self.old }
        ensures some { IfSome result (λ batch. HandsOut self.old self.new to batch) }
        ensures place { InPlace self.old self.new }
    {
        self.queues[to as usize].pop()
    }

    /// Puts a batch back as the oldest closed one for its next hop, as after `next_out`. It takes no memory.
    pub fn step_back(&mut self, to: u32, batch: Batch)
        requires within { to < self.old.layout.ranks }
        requires routed { IsBatchFor self.old to batch }
        requires room { 1 ≤ slice_index_or self.old.room to 0 }
        ensures back { self.new.queues ≡ with_batch_back self.old.queues to batch }
        ensures place { InPlace self.old self.new }
    {
        self.queues[to as usize].give_back(batch);
    }

    /// Whether a letter is held for a next hop.
    pub fn holds_any(&self, to: u32) -> bool
        requires { to < self.now.layout.ranks }
        ensures none { result ≡ false → letters_in (queue_at self.now.queues to) ≡ [] }
        ensures some { letters_in (queue_at self.now.queues to) ≡ [] → result ≡ false }
    {
        self.queues[to as usize].holds_any()
    }

    /// The number of closed batches for a next hop.
    pub fn closed_count(&self, to: u32) -> usize
        requires { to < self.now.layout.ranks }
        ensures { result ≡ length (queue_at self.now.queues to).closed }
    {
        self.queues[to as usize].closed_count()
    }

    /// Whether no letter is held.
    pub fn is_empty(&self) -> bool
        ensures empty { result ≡ true → queued self.now.queues ≡ [] }
        ensures some { queued self.now.queues ≡ [] → result ≡ true }
    {
        for to in 0..self.layout.ranks() {
            if self.holds_any(to) {
                return false;
            }
        }
        true
    }

    /// Does nothing, and states what is always true: there is a queue for each rank, with letters whose next hop it is,
    /// in batches within the limit.
    pub fn holds(&self)
        ensures routed { AreRouted self.now }
        ensures laid_out { IsLayout self.now.layout }
    {
        let _ranks = self.layout.ranks();
    }
}
