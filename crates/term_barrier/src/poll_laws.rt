//! What polls one after another add up to. Each law is the contract of a function that does nothing.
ghost use Rattle.std.specs.Prelude.{◌≡◌, ℕ, true, false, List};
ghost use Rattle.list_facts.specs.Prefix.{IsPrefix};
ghost use Rattle.world_core.specs.declared.entry.Entry.{Entry};
ghost use Rattle.world_core.specs.Log.{letters_taken};
ghost use Rattle.world_core.specs.Pairs.{for_rank};
ghost use Rattle.world_core.specs.Post.{PostState};
ghost use Rattle.comm_rank.specs.declared.turn.Turn.{Turn};
ghost use Rattle.comm_rank.specs.Fold.{Applies};
ghost use Rattle.comm_rank.specs.Rank.{Rank, Worked};
ghost use Rattle.comm_rank.specs.Turns.{Advanced, KeepsPost};
ghost use Rattle.term_barrier.specs.declared.polled.Polled.TheVariants.{Left, Waiting as Waits};
ghost use Rattle.term_barrier.specs.declared.polled.Waiting.{Waiting};
ghost use Rattle.term_barrier.specs.Barriers.{BarrierState};
ghost use Rattle.term_barrier.specs.Polls.{BarrierEnded, HasPolled, HasWaited, IsSameBarrier, PollEnded, Stands};

/// The letters that its turn took ran in a poll, and no others. The log grew.
pub fn a_poll_runs_what_its_turn_took<C>()
    ensures advanced { (apply : Applies C) (old new : Rank C) (before after : List Entry) (turn : Turn)
        (polled : HasPolled apply old new before after turn) →
        Advanced apply old new before after (for_rank old.here (letters_taken polled.turned.taken)) }
    ensures grown { (apply : Applies C) (old new : Rank C) (before after : List Entry) (turn : Turn) →
        HasPolled apply old new before after turn → IsPrefix before after }
{}

/// Polls add up. A rank that entered a barrier has waited before its first poll, and after each poll that waits. After
/// the poll by which it leaves, the barrier has ended.
pub fn polls_of_a_barrier_add_up<C>()
    ensures first { (apply : Applies C) (start : C → C) (barrier : BarrierState) (me : Rank C) (post : PostState) →
        barrier.inside ≡ true → me.stopped ≡ false → Stands apply start barrier me post →
        HasWaited apply start barrier barrier me me post post }
    ensures more { (apply : Applies C) (start : C → C) (entered old new : BarrierState) (one me now : Rank C)
        (before mid after : PostState) (why : Waiting) → HasWaited apply start entered old one me before mid →
        IsSameBarrier old new → Worked (record me { stopped = false }) now → KeepsPost me mid after →
        PollEnded apply start old new me now mid after (Waits why) →
        HasWaited apply start entered new one now before after }
    ensures ended { (apply : Applies C) (start : C → C) (outside old new : BarrierState) (one me now : Rank C)
        (before mid after : PostState) (number round : ℕ) →
        HasWaited apply start (record outside { inside = true }) old one me before mid →
        PollEnded apply start old new me now mid after (Left number round) →
        BarrierEnded apply start outside new one now before after number round }
{}
