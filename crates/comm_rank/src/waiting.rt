//! The letters that a rank took and that haven't run.
ghost use Rattle.std.specs.Prelude.{◌≡◌, ◌<◌, [], length, drop, slice_get, Some};
ghost use Rattle.msg_codec.specs.Letter.{letter_of};

use msg_codec::{Batch, LetterRef};
use std::alloc::Global;
use std::marker::Model;

/// The letters of a batch after those that are done.
#[derive(Drop)]
pub(crate) struct Waiting {
    batch: Batch,
    count: u64,
    done: u64,
}

impl Model for Waiting {
    ghost use Rattle.std.specs.Prelude.{◌≡◌, ◌≤◌, List, drop, length};
    ghost use Rattle.msg_codec.specs.declared.letter.Letter.{Letter};

    ghost Value = { List Letter };

    ghost view = { λ waiting. drop waiting.done waiting.batch };

    ghost invariant = { λ waiting. (waiting.count ≡ length waiting.batch) × (waiting.done ≤ waiting.count) };
}

impl Waiting {
    /// No letters. It takes no memory.
    pub(crate) fn none(alloc: Global) -> Waiting
        ensures { result ≡ [] }
    {
        Waiting {
            batch: Batch::empty(alloc),
            count: 0,
            done: 0,
        }
    }

    /// All letters of a batch.
    pub(crate) fn of(batch: Batch) -> Waiting
        ensures { result ≡ batch }
    {
        let count = batch.count();
        Waiting {
            batch,
            count,
            done: 0,
        }
    }

    /// The number of letters that wait.
    pub(crate) fn count(&self) -> u64
        ensures { result ≡ length self.now }
    {
        self.count - self.done
    }

    /// The letter that waits first.
    pub(crate) fn first(&self) -> LetterRef<'_>
        requires { 0 < length self.now }
        ensures { slice_get self.now 0 ≡ Some (letter_of result) }
    {
        self.batch.letter_at(self.done)
    }

    /// Drops that letter, which no longer waits.
    pub(crate) fn drop_first(&mut self)
        requires { 0 < length self.old }
        ensures { self.new ≡ drop 1 self.old }
    {
        self.done += 1;
    }
}
