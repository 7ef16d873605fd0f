//! What keeps a world sound. Each law is the contract of a function that does nothing, so a caller may rely on
//! it. The laws speak of logs alone, whatever carries the letters.
ghost use Rattle.std.specs.Prelude.{◌≡◌, ◌↔◌, ◌<◌, ◌^◌, true, ℕ, List, [], ◌∷◌, None, Some, length, slice_get};
ghost use Rattle.std.specs.List.{AllByRecursion};
ghost use Rattle.world_core.specs.Worked.{start, one, one_put, counted_two, total_of_three, for_two, from_two};
ghost use Rattle.world_core.specs.declared.entry.Event.TheVariants.{Put as PutEvent, Take};
ghost use Rattle.world_core.specs.declared.why.Why.TheVariants.{NothingThere, SentWhileCounted};
ghost use Rattle.msg_codec.specs.declared.letter.Letter.{Letter};
ghost use Rattle.ygm_route.specs.declared.scheme.Scheme.{Scheme};
ghost use Rattle.ygm_route.specs.Layout.{IsLayout, Shape};
ghost use Rattle.world_core.specs.declared.entry.Entry.TheVariants.{Put, Took};
ghost use Rattle.world_core.specs.Local.{Local};
ghost use Rattle.world_core.specs.Limits.{data_tags, most_arrived, most_batches, most_letters, most_rounds};
ghost use Rattle.world_core.specs.Counts.{IsTrueCount};
ghost use Rattle.world_core.specs.Log.{batches_put, batches_taken, letters_put};
ghost use Rattle.world_core.specs.Modest.{IsWorld};
ghost use Rattle.world_core.specs.Rules.{first_broken, same_letter};
ghost use Rattle.world_core.specs.Rules.Deed.{Puts};
ghost use Rattle.world_core.specs.Wave.{data_of};
ghost use Rattle.world_core.specs.World.{Logs, fresh, gaining, link, local, log_of, refusal, after};

use crate::Limits;

/// A world in which nothing happened yet is sound.
pub fn a_fresh_world_is_sound()
    ensures { (layout : Shape) (scheme : Scheme) → IsLayout layout → IsWorld (fresh layout scheme) }
{}

/// An honest put keeps a sound world sound. Whether it is honest depends on the log of its rank alone.
pub fn an_honest_put_keeps_a_sound_world()
    ensures { (world : Logs) (from to : ℕ) (letters : List Letter) → IsWorld world →
        first_broken (local world from) (Puts to letters) ≡ None →
        IsWorld (gaining world from (Put to letters)) }
{}

/// An honest put is over a link between ranks of the world.
pub fn an_honest_put_is_between_ranks()
    ensures { (me : Local) (to : ℕ) (letters : List Letter) → first_broken me (Puts to letters) ≡ None →
        (me.here < me.layout.ranks) × (to < me.layout.ranks) }
{}

/// Taking the next batch of a link keeps a sound world sound. The next batch is the first that the sender's log
/// put there and the log of the rank that takes didn't take yet.
pub fn taking_the_next_batch_keeps_a_sound_world()
    ensures { (world : Logs) (from to : ℕ) (letters : List Letter) → IsWorld world →
        slice_get (batches_put to (log_of world from)) (length (batches_taken from (log_of world to))) ≡ Some letters →
        IsWorld (gaining world to (Took from letters)) }
{}

/// A Count that a rank put carries the numbers of its log before it: how many letters the rank sent, and how many ran.
pub fn counts_carry_what_was_sent_and_run()
    ensures { (world : Logs) (rank : ℕ) → IsWorld world →
        AllByRecursion (IsTrueCount rank (log_of world rank)) (letters_put (log_of world rank)) }
{}

/// Each data letter that was put was taken, exactly where no link holds one.
pub fn no_link_holds_a_data_letter()
    ensures { (world : Logs) → IsWorld world →
        ((from to : ℕ) → data_of (batches_taken from (log_of world to)) ≡ data_of (batches_put to (log_of world from)))
        ↔ ((from to : ℕ) → data_of (link world from to) ≡ []) }
{}

/// The numbers that bound a run.
pub fn the_limits_are_these_numbers()
    ensures letters { most_letters ≡ 2 ^ 56 }
    ensures rounds { most_rounds ≡ 2 ^ 56 }
    ensures batches { most_batches ≡ 2 ^ 62 }
    ensures arrived { most_arrived ≡ 2 ^ 62 }
    ensures tags { data_tags ≡ 240 }
{}

/// What `Limits::FULL` is.
pub fn the_greatest_limits() -> Limits
    ensures letters { result.letters ≡ most_letters }
    ensures rounds { result.rounds ≡ most_rounds }
    ensures batches { result.batches ≡ most_batches }
{
    Limits::FULL
}

/// The comparison of letters is equality.
pub fn letters_are_the_same_where_they_are_equal()
    ensures { (a b : Letter) → same_letter a b ≡ true ↔ a ≡ b }
{}

/// A worked case of the definitions: of two takes after one put, the second is refused.
#[tactic(auto, unfolding(crate::specs::Rules::first_broken, crate::specs::Pairs::sent_number, ygm_route::specs::Hop::hop))]
pub fn a_second_take_is_refused()
    ensures put { refusal start (PutEvent 0 1 (one ∷ [])) ≡ None }
    ensures first { refusal one_put (Take 1 0) ≡ None }
    ensures second { refusal (after one_put (Take 1 0)) (Take 1 0) ≡ Some NothingThere }
{}

/// A worked case of the definitions: when a rank that counted may send again. It took the Totals of two rounds that agree,
/// and none before them is missing; or it took a letter for itself.
#[tactic(auto, unfolding(crate::specs::Rules::first_broken, crate::specs::Counts::total_taken, crate::specs::Rounds::first_round, crate::specs::Rounds::rounds_known, crate::specs::Rounds::barrier_start, crate::specs::Pairs::sent_number, crate::specs::Pairs::run_number, list_facts::specs::Below::in_a_row, msg_codec::specs::Control::spelled_counts, msg_codec::specs::Control::round_of, msg_codec::specs::Control::sent_of, msg_codec::specs::Control::run_of, ygm_route::specs::Hop::hop))]
pub fn a_rank_that_counted_may_send_again()
    ensures not_yet { first_broken (counted_two []) (Puts 1 (from_two ∷ [])) ≡ Some SentWhileCounted }
    ensures one_total { first_broken (counted_two (total_of_three 0 ∷ [])) (Puts 1 (from_two ∷ [])) ≡ Some SentWhileCounted }
    ensures one_missing { first_broken (counted_two (total_of_three 1 ∷ total_of_three 2 ∷ [])) (Puts 1 (from_two ∷ [])) ≡ Some SentWhileCounted }
    ensures two_totals { first_broken (counted_two (total_of_three 0 ∷ total_of_three 1 ∷ [])) (Puts 1 (from_two ∷ [])) ≡ None }
    ensures own_letter { first_broken (counted_two (for_two ∷ [])) (Puts 1 (from_two ∷ [])) ≡ None }
{}
