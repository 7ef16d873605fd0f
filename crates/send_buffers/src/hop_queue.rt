//! What is held for one next hop.
ghost use Rattle.std.specs.Prelude.{◌≡◌, ◌<◌, ◌≤◌, ◌++◌, false, [], ◌∷◌, length, IfOk, IfSome, IsNone, OnOk, OnErr, OnSome};
ghost use Rattle.msg_codec.specs.Letter.{letter_of};
ghost use Rattle.send_buffers.specs.Buffers.{added, closed_up, empty_queue, given_back, may_join};
ghost use Rattle.send_buffers.specs.Stored.{kept_for};

use msg_codec::{Batch, LetterRef};
use std::alloc::{AllocError, Global};
use std::collections::VecDeque;
use std::marker::Model;
use std::mem;

/// The closed batches for one next hop, the oldest first, and the batch that still gains letters. While that has a letter,
/// there is memory to close it.
#[derive(Drop)]
pub(crate) struct HopQueue {
    closed: VecDeque<Batch>,
    gathered: Batch,
}

impl Model for HopQueue {
    ghost use Rattle.std.specs.Prelude.{◌-◌, ◌+◌, ◌≤◌};
    ghost use Rattle.std.specs.VecDeque.{deque_capacity, deque_len};
    ghost use Rattle.send_buffers.specs.Stored.{Stored, kept_for};

    ghost Value = { Stored };

    ghost view = { λ queue. record {
      held = record { closed = queue.closed.items; gathered = queue.gathered };
      room = deque_capacity queue.closed - deque_len queue.closed - kept_for queue.gathered;
    } };

    ghost invariant = { λ queue. deque_len queue.closed + kept_for queue.gathered ≤ deque_capacity queue.closed };
}

/// A batch of one letter, with room for as many bytes as a batch may have.
fn begun(alloc: Global, limit: usize, letter: LetterRef<'_>) -> Result<Batch, AllocError>
    ensures { IfOk result (λ batch. batch ≡ letter_of letter.entry ∷ []) }
{
    let mut batch = Batch::empty(alloc);
    batch.reserve(limit.max(letter.spelled_len()))?;
    batch.push(letter)?;
    Ok(batch)
}

impl HopQueue {
    /// Nothing is held. It takes no memory.
    pub(crate) fn new(alloc: Global) -> HopQueue
        ensures { result.held ≡ empty_queue }
    {
        HopQueue {
            closed: VecDeque::new(alloc),
            gathered: Batch::empty(alloc),
        }
    }

    /// Whether the open batch may gain the letter.
    fn may_gain(&self, limit: usize, letter: LetterRef<'_>) -> bool
        ensures { result ≡ may_join limit self.now.held.gathered (letter_of letter.entry) }
    {
        if self.gathered.count() == 0 {
            return true;
        }
        let taken = self.gathered.bytes_len();
        taken <= limit && letter.spelled_len() <= limit - taken
    }

    /// Appends a letter to the open batch. The first letter reserves the memory of the batch, and that to close it.
    fn gain(&mut self, limit: usize, letter: LetterRef<'_>) -> Result<(), AllocError>
        ensures ok { OnOk result (self.new.held ≡ record self.old.held { gathered = self.old.held.gathered ++ letter_of letter.entry ∷ [] }) }
        ensures err { OnErr result (self.new.held ≡ self.old.held) }
    {
        if self.gathered.count() == 0 {
            self.closed.reserve(1)?;
            self.gathered.reserve(limit.max(letter.spelled_len()))?;
        }
        self.gathered.push(letter)
    }

    /// Adds a letter to the open batch, or to the next one.
    pub(crate) fn add(
        &mut self,
        alloc: Global,
        limit: usize,
        letter: LetterRef<'_>,
    ) -> Result<(), AllocError>
        ensures ok { OnOk result (self.new.held ≡ added limit self.old.held (letter_of letter.entry)) }
        ensures err { OnErr result (self.new.held ≡ self.old.held) }
    {
        if self.may_gain(limit, letter) {
            return self.gain(limit, letter);
        }
        let next = begun(alloc, limit, letter)?;
        self.closed.reserve(2)?;
        self.close(next);
        Ok(())
    }

    /// Closes the open batch, which has a letter, and opens another. It takes no memory.
    fn close(&mut self, next: Batch)
        requires some { 0 < length self.old.held.gathered }
        requires room { kept_for next ≤ self.old.room }
        ensures { self.new.held ≡ record { closed = self.old.held.closed ++ self.old.held.gathered ∷ []; gathered = next } }
    {
        let full = mem::replace(&mut self.gathered, next);
        self.closed.push_back_reserved(full);
    }

    /// Closes the open batch if it has a letter. It takes no memory.
    pub(crate) fn close_up(&mut self, alloc: Global)
        ensures { self.new.held ≡ closed_up self.old.held }
    {
        if self.gathered.count() > 0 {
            self.close(Batch::empty(alloc));
        }
    }

    /// Removes and returns the oldest closed batch.
    pub(crate) fn pop(&mut self) -> Option<Batch>
        ensures none { IsNone result → self.old.held.closed ≡ [] }
        ensures unchanged { IsNone result → self.new ≡ self.old }
        ensures oldest { IfSome result (λ batch. self.old.held ≡ given_back self.new.held batch) }
        ensures room { OnSome result (1 ≤ self.new.room) }
    {
        self.closed.pop_front()
    }

    /// Puts a batch back as the oldest closed one. It takes no memory.
    pub(crate) fn give_back(&mut self, batch: Batch)
        requires { 1 ≤ self.old.room }
        ensures { self.new.held ≡ given_back self.old.held batch }
    {
        self.closed.push_front_reserved(batch);
    }

    /// The number of closed batches.
    pub(crate) fn closed_count(&self) -> usize
        ensures { result ≡ length self.now.held.closed }
    {
        self.closed.len()
    }

    /// Whether there is a batch, closed or open.
    pub(crate) fn holds_any(&self) -> bool
        ensures none { result ≡ false → self.now.held ≡ empty_queue }
        ensures some { self.now.held ≡ empty_queue → result ≡ false }
    {
        self.gathered.count() > 0 || !self.closed.is_empty()
    }
}
