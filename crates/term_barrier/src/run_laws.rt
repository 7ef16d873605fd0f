//! What a run comes to where handlers give no letters. Each law is the contract of a function that does nothing.
ghost use Rattle.std.specs.Prelude.{◌≡◌, ◌<◌, ℕ, Bool, IsTrue, List, [], drop, sum_by};
ghost use Rattle.std.specs.List.{AllByRecursion};
ghost use Rattle.list_facts.specs.Sums.{sum_upto};
ghost use Rattle.msg_codec.specs.declared.letter.Letter.{Letter};
ghost use Rattle.world_core.specs.declared.entry.Entry.{Entry};
ghost use Rattle.world_core.specs.Pairs.{arrived, is_of_pair, of_pair};
ghost use Rattle.comm_rank.specs.Fold.{Applies, fold_from};
ghost use Rattle.comm_rank.specs.Rank.{Rank};
ghost use Rattle.term_barrier.specs.Account.{IsUpToDate};
ghost use Rattle.term_barrier.specs.CompleteRun.{Arrivals, IsCompleteRun, OwnLetters, earlier};
ghost use Rattle.term_barrier.specs.Cuts.{arrivals_of, phase_start};
ghost use Rattle.term_barrier.specs.SilentRun.{HavePassed, IsSilent};

/// Where handlers give no letters, what arrives at a rank from another in a phase of a complete run are the own letters of
/// the other to that rank, in order, and no others. So own letters are data letters of their pair. What a test says of all
/// own letters to a rank, it says of all that arrive there. Whatever weights letters have, those of what arrives add up to
/// those of the own letters of all ranks.
pub fn own_letters_alone_arrive_where_handlers_are_silent<C>()
    ensures own { (apply : Applies C) (ranks phases : ℕ) (start : ℕ → C) (own : OwnLetters) (arrivals : Arrivals) →
        IsCompleteRun apply ranks phases start own arrivals → IsSilent apply →
        (from to phase : ℕ) → from < ranks → to < ranks → phase < phases →
        of_pair from to (arrivals to phase) ≡ own from phase to }
    ensures pairs { (apply : Applies C) (ranks phases : ℕ) (start : ℕ → C) (own : OwnLetters) (arrivals : Arrivals) →
        IsCompleteRun apply ranks phases start own arrivals → IsSilent apply →
        (from to phase : ℕ) → from < ranks → to < ranks → phase < phases →
        AllByRecursion (λ l. IsTrue (is_of_pair from to l)) (own from phase to) }
    ensures each { (apply : Applies C) (ranks phases : ℕ) (start : ℕ → C) (own : OwnLetters) (arrivals : Arrivals) →
        IsCompleteRun apply ranks phases start own arrivals → IsSilent apply →
        (test : Letter → Bool) (to phase : ℕ) → to < ranks → phase < phases →
        ((from : ℕ) → from < ranks → AllByRecursion (λ l. IsTrue (test l)) (own from phase to)) →
        AllByRecursion (λ l. IsTrue (test l)) (arrivals to phase) }
    ensures weights { (apply : Applies C) (ranks phases : ℕ) (start : ℕ → C) (own : OwnLetters) (arrivals : Arrivals) →
        IsCompleteRun apply ranks phases start own arrivals → IsSilent apply →
        (weight : Letter → ℕ) (to phase : ℕ) → to < ranks → phase < phases →
        sum_by weight (arrivals to phase) ≡ sum_upto (λ from. sum_by weight (own from phase to)) ranks }
{}

/// Once all ranks have passed their last barrier, and none has sent an own letter since, what arrived in each phase is a
/// complete run of the own letters. Where handlers give no letters, nothing arrived after the last cut, and the contents of
/// each rank are the fold of what arrived there in all phases. Whatever weights letters have, those of what arrived in a
/// phase add up to those of the own letters of all ranks.
pub fn silent_ranks_end_with_the_fold_of_own_letters<C>()
    ensures run { (apply : Applies C) (ranks phases : ℕ) (start : ℕ → C) (own : OwnLetters)
        (cuts : ℕ → ℕ → ℕ) (held : ℕ → List Letter) (logs : ℕ → List Entry) →
        HavePassed apply ranks phases start own cuts held logs →
        IsCompleteRun apply ranks phases start own (arrivals_of logs cuts) }
    ensures nothing_after { (apply : Applies C) (ranks phases : ℕ) (start : ℕ → C) (own : OwnLetters)
        (cuts : ℕ → ℕ → ℕ) (held : ℕ → List Letter) (logs : ℕ → List Entry) →
        HavePassed apply ranks phases start own cuts held logs → IsSilent apply →
        (rank : ℕ) → rank < ranks → arrived rank (drop (phase_start (cuts rank) phases) (logs rank)) ≡ [] }
    ensures contents { (apply : Applies C) (ranks phases : ℕ) (start : ℕ → C) (own : OwnLetters)
        (cuts : ℕ → ℕ → ℕ) (held : ℕ → List Letter) (logs : ℕ → List Entry) →
        HavePassed apply ranks phases start own cuts held logs → IsSilent apply →
        (begin : C → C) (me : Rank C) → me.here < ranks → me.layout.ranks ≡ ranks →
        begin me.contents ≡ start me.here → IsUpToDate apply begin me (logs me.here) →
        me.contents ≡ fold_from apply me.here ranks (start me.here) (earlier (arrivals_of logs cuts me.here) phases) }
    ensures weights { (apply : Applies C) (ranks phases : ℕ) (start : ℕ → C) (own : OwnLetters)
        (cuts : ℕ → ℕ → ℕ) (held : ℕ → List Letter) (logs : ℕ → List Entry) →
        HavePassed apply ranks phases start own cuts held logs → IsSilent apply →
        (weight : Letter → ℕ) (to phase : ℕ) → to < ranks → phase < phases →
        sum_by weight (arrivals_of logs cuts to phase) ≡ sum_upto (λ from. sum_by weight (own from phase to)) ranks }
{}
