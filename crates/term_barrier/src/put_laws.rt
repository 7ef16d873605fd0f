//! The Counts and Totals that a barrier puts break no rule of the world. Each law is the contract of a function that
//! does nothing.
ghost use Rattle.std.specs.Prelude.{◌≡◌, ◌≢◌, ◌+◌, ◌<◌, ◌≤◌, ℕ, true, is_some, None, List, [], ◌∷◌, ◌++◌};
ghost use Rattle.msg_codec.specs.Control.{ControlFits, is_count, is_total, letter_of_control, round_of, run_of, sent_of};
ghost use Rattle.msg_codec.specs.declared.control.Control.TheVariants.{Count, Total};
ghost use Rattle.msg_codec.specs.declared.letter.Letter.{Letter};
ghost use Rattle.world_core.specs.declared.entry.Entry.{Entry};
ghost use Rattle.world_core.specs.declared.entry.Entry.TheVariants.{Put};
ghost use Rattle.world_core.specs.ControlRules.{is_free, run_taken, sent_taken};
ghost use Rattle.world_core.specs.Counts.{count_taken, counts, totals};
ghost use Rattle.world_core.specs.Local.{Local, having_put, to_forward};
ghost use Rattle.world_core.specs.Pairs.{own_count, run_count};
ghost use Rattle.world_core.specs.Post.{PostState, local_at};
ghost use Rattle.world_core.specs.Rounds.{Sums, rounds_known};
ghost use Rattle.world_core.specs.Rules.{first_broken};
ghost use Rattle.world_core.specs.Rules.Deed.{Puts};
ghost use Rattle.comm_rank.specs.Fold.{Applies};
ghost use Rattle.comm_rank.specs.Rank.{IsIdle, Rank};
ghost use Rattle.term_barrier.specs.Barriers.{BarrierAgrees, BarrierState, InRange, IsNextTotal, IsTotalDue, control_letters, with_count_put, with_total_put};
ghost use Rattle.term_barrier.specs.Polls.{Stands};

/// A Count breaks no rule where it is of the round after those that its rank knows, and has the rank's counts, while
/// the rank has nothing to forward.
pub fn a_count_of_an_idle_rank_is_honest()
    ensures { (me : Local) (l : Letter) → me.here < me.layout.ranks → is_count l ≡ true → l.from ≡ me.here → l.to ≡ 0 →
        round_of l ≡ counts me.log → sent_of l ≡ own_count me.here me.log → run_of l ≡ run_count me.here me.log →
        counts me.log ≡ rounds_known me.here me.log → ((from to : ℕ) → from ≢ me.here → to_forward me from to ≡ []) →
        first_broken me (Puts 0 (l ∷ [])) ≡ None }
{}

/// A Total breaks no rule where rank 0 puts it to its rank, it is of the round after the last Total to that rank, and
/// it has the sums of the Counts of all ranks of that round, which rank 0 took.
pub fn a_total_of_all_counts_is_honest()
    ensures { (me : Local) (to : ℕ) (l : Letter) → me.here ≡ 0 → to < me.layout.ranks → is_total l ≡ true →
        l.from ≡ 0 → l.to ≡ to → round_of l ≡ totals to me.log →
        ((j : ℕ) → j < me.layout.ranks → is_some (count_taken j (round_of l) me.log) ≡ true) →
        sent_of l ≡ sent_taken me (round_of l) → run_of l ≡ run_taken me (round_of l) →
        first_broken me (Puts to (l ∷ [])) ≡ None }
{}

/// After a put of a Count, the log has one Count more and as many Totals. After a put of a Total, it has one Total more
/// to that rank, and as many Totals to others and Counts. What it took is unchanged.
pub fn a_control_letter_that_is_put_is_counted_once()
    ensures count { (log : List Entry) (to : ℕ) (l : Letter) → is_count l ≡ true →
        counts (log ++ Put to (l ∷ []) ∷ []) ≡ counts log + 1 }
    ensures no_total { (rank to : ℕ) (log : List Entry) (l : Letter) → is_count l ≡ true →
        totals rank (log ++ Put to (l ∷ []) ∷ []) ≡ totals rank log }
    ensures total { (to : ℕ) (log : List Entry) (l : Letter) → is_total l ≡ true →
        totals to (log ++ Put to (l ∷ []) ∷ []) ≡ totals to log + 1 }
    ensures other_totals { (rank to : ℕ) (log : List Entry) (l : Letter) → is_total l ≡ true → to ≢ rank →
        totals rank (log ++ Put to (l ∷ []) ∷ []) ≡ totals rank log }
    ensures no_count { (log : List Entry) (to : ℕ) (l : Letter) → is_total l ≡ true →
        counts (log ++ Put to (l ∷ []) ∷ []) ≡ counts log }
    ensures control_letters { (log : List Entry) (to : ℕ) (batch : List Letter) →
        control_letters (log ++ Put to batch ∷ []) ≡ control_letters log }
    ensures sums { (me : Local) (to : ℕ) (batch : List Letter) (q : ℕ) →
        (sent_taken (having_put me to batch) q ≡ sent_taken me q)
        × (run_taken (having_put me to batch) q ≡ run_taken me q) }
    ensures free { (me : Local) (to : ℕ) (l : Letter) → is_total l ≡ true →
        is_free (having_put me to (l ∷ [])) ≡ is_free me }
{}

/// A barrier that its rank is inside agrees with its log, after it put a Count and counts one more, and after it put
/// the next Total.
pub fn a_barrier_that_puts_a_letter_stays_in_agreement()
    ensures count { (barrier : BarrierState) (me : Local) (l : Letter) → barrier.inside ≡ true → is_count l ≡ true →
        BarrierAgrees barrier [] me → BarrierAgrees (with_count_put barrier) [] (having_put me 0 (l ∷ [])) }
    ensures total { (barrier : BarrierState) (me : Local) (l : Letter) → barrier.inside ≡ true → (to : ℕ) →
        is_total l ≡ true → InRange barrier → IsNextTotal barrier to → BarrierAgrees barrier [] me →
        BarrierAgrees (with_total_put barrier to) [] (having_put me to (l ∷ [])) }
{}

/// The Count of an idle rank that knows each round before, and a Total that is due at rank 0, break no rule.
pub fn a_barrier_puts_no_letter_that_breaks_a_rule<C>()
    ensures count { (apply : Applies C) (start : C → C) (barrier : BarrierState) (me : Rank C) (post : PostState) →
        Stands apply start barrier me post → InRange barrier → me.controls ≡ [] →
        IsIdle me → barrier.counted ≤ barrier.known →
        ControlFits (Count me.here barrier.counted me.sent_count me.run_count) →
        first_broken (local_at post me.here)
        (Puts 0 (letter_of_control (Count me.here barrier.counted me.sent_count me.run_count) ∷ [])) ≡ None }
    ensures total { (apply : Applies C) (start : C → C) (barrier : BarrierState) (me : Rank C) (post : PostState) →
        Stands apply start barrier me post → InRange barrier → me.controls ≡ [] → (to : ℕ) (sums : Sums) →
        me.here ≡ 0 → IsTotalDue barrier to sums → ControlFits (Total to barrier.over sums.sent sums.run) →
        first_broken (local_at post 0)
        (Puts to (letter_of_control (Total to barrier.over sums.sent sums.run) ∷ [])) ≡ None }
{}
