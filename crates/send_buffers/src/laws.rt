//! What holds of all buffers. Each law is the contract of a function that does nothing.
ghost use Rattle.std.specs.Prelude.{◌≡◌, ◌+◌, ℕ, Bool, List, [], ◌∷◌, ◌++◌, length, map};
ghost use Rattle.std.specs.List.{filter};
ghost use Rattle.msg_codec.specs.declared.letter.Letter.{Letter};
ghost use Rattle.ygm_route.specs.Layout.{AreRanks};
ghost use Rattle.send_buffers.specs.Buffers.{AreRouted, Buffered, Queue, closed_up, hop_to, letters_in, queue_at, queued};
ghost use Rattle.send_buffers.specs.Calls.{HandsOut, with_batch_back, with_letter};
ghost use Rattle.send_buffers.specs.Laws.{PassesOnlyTo};
ghost use Rattle.send_buffers.specs.Limits.{max_buffer, min_buffer};

use crate::{MAX_BUFFER, MIN_BUFFER};

/// The numbers that bound the limit of a batch, and the constants that have them.
pub fn the_limits_are_these_numbers()
    ensures least { (min_buffer ≡ 64) × (MIN_BUFFER ≡ min_buffer) }
    ensures most { (max_buffer ≡ 65536) × (MAX_BUFFER ≡ max_buffer) }
{}

/// All letters for one destination are held for one next hop.
pub fn letters_for_one_destination_are_in_one_queue()
    ensures { (held : Buffered) (to : ℕ) (test : Letter → Bool) → AreRouted held → PassesOnlyTo to test →
        filter test (queued held.queues) ≡ filter test (letters_in (queue_at held.queues (hop_to held to))) }
{}

/// A letter that is added comes after the others for its destination, and all of them stay.
pub fn an_added_letter_comes_last()
    ensures order { (held : Buffered) (l : Letter) (queues : List Queue) (to : ℕ) (test : Letter → Bool) →
        AreRouted held → AreRanks held.layout held.here l.to → queues ≡ with_letter held l → PassesOnlyTo to test →
        filter test (queued queues) ≡ filter test (queued held.queues) ++ filter test (l ∷ []) }
    ensures count { (held : Buffered) (l : Letter) (queues : List Queue) (test : Letter → Bool) →
        AreRouted held → AreRanks held.layout held.here l.to → queues ≡ with_letter held l →
        length (filter test (queued queues)) ≡ length (filter test (queued held.queues)) + length (filter test (l ∷ [])) }
{}

/// The letters of a batch that is handed out came before the others for their destinations, and all others stay.
pub fn a_batch_handed_out_came_first()
    ensures order { (old new : Buffered) (next : ℕ) (batch : List Letter) (to : ℕ) (test : Letter → Bool) →
        AreRouted old → HandsOut old new next batch → PassesOnlyTo to test →
        filter test (queued old.queues) ≡ filter test batch ++ filter test (queued new.queues) }
    ensures count { (old new : Buffered) (next : ℕ) (batch : List Letter) (test : Letter → Bool) →
        HandsOut old new next batch →
        length (filter test (queued old.queues)) ≡ length (filter test batch) + length (filter test (queued new.queues)) }
{}

/// Closing batches changes no letters and not their order, and leaves no batch open.
pub fn a_flush_changes_no_letters()
    ensures letters { (queues : List Queue) → queued (map closed_up queues) ≡ queued queues }
    ensures none_open { (queues : List Queue) (next : ℕ) → (queue_at (map closed_up queues) next).gathered ≡ [] }
{}

/// A batch that was handed out and steps back is where it was, and so are all others.
pub fn a_batch_steps_back_to_its_place()
    ensures { (old new : Buffered) (next : ℕ) (batch : List Letter) → HandsOut old new next batch →
        with_batch_back new.queues next batch ≡ old.queues }
{}
