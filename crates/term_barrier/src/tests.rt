ghost use Rattle.std.specs.Prelude.{[], refl};

mod faults;
mod ranks;
mod relay;
mod rounds;
mod waits;

use super::carried_laws::*;
use super::laws::*;
use super::run_laws::*;
use comm_rank::{Handler, Outgoing};
use msg_codec::LetterRef;
use std::alloc::AllocError;

// A handler that keeps nothing and sends nothing.
#[derive(Drop)]
struct Silent;

impl Handler for Silent {
    ghost apply = { λ contents _ _ _. (contents, []) };

    ghost start = { λ contents. contents };

    fn run(
        &mut self,
        _here: u32,
        _letter: LetterRef<'_>,
        _out: &mut Outgoing,
    ) -> Result<(), AllocError> {
        Ok(())
    }

    ghost keeps_start = { λ _ _ _ _. refl };
}

#[test]
fn the_laws_can_be_cited() {
    a_merge_has_both_lists_in_order::<u64>();
    a_fresh_rank_has_an_account::<u64>();
    a_rank_is_up_to_date_with_its_log::<Silent>();
    a_turn_keeps_the_account::<Silent>();
    an_own_letter_is_one_more_of_its_phase::<Silent>();
    control_letters_keep_the_account::<u64>();
    a_count_with_nothing_held_is_at_a_counted_place::<u64>();
    a_counted_place_ends_a_phase::<u64>();
    a_poll_keeps_the_account::<Silent>();
    each_count_of_a_barrier_is_at_a_counted_place::<Silent>();
    leaving_a_barrier_ends_a_phase::<u64>();
    worlds_give_what_these_laws_ask();
    accounts_and_quiet_cuts_make_a_complete_run::<u64>();
    nothing_arrives_after_the_last_cut::<u64>();
    contents_are_the_fold_of_all_phases::<Silent>();
    own_letters_alone_arrive_where_handlers_are_silent::<u64>();
    silent_ranks_end_with_the_fold_of_own_letters::<u64>();
    what_a_rank_was_told_is_so();
    one_round_ends_each_barrier();
    a_rank_leaves_a_barrier_for_good();
    barriers_end_at_quiet_cuts();
    a_new_barrier_agrees_with_the_empty_log();
    a_barrier_stays_in_agreement::<u64>();
    a_barrier_is_handed_control_letters();
    a_barrier_knows_the_rounds_of_its_log();
    a_barrier_has_room_for_what_it_is_handed();
    all_is_settled_where_a_barrier_ended::<u64>();
    a_rank_outside_carries_its_own_letters::<Silent>();
    the_same_letters_and_rounds_are_carried_too::<u64>();
    turns_keep_what_a_rank_carries::<Silent>();
    polls_keep_what_a_rank_carries::<Silent>();
    ranks_that_carry_all_phases_have_passed::<Silent>();
    a_rank_alone_leaves_at_its_second_round();
}
