//! Bags and sets that are spread over ranks. A bag deals its items out to the ranks in turn; of a set each rank keeps the
//! items that it owns.
#![tactic(auto)]

mod bag;
mod bag_calls;
mod bag_laws;
mod kept_items;
mod set;
mod set_calls;
mod set_laws;

pub use bag::Bag;
pub use bag_calls::{BagTurn, bag_insert};
pub use bag_laws::{
    a_bag_holds_what_was_inserted, a_bag_insert_inserts, bags_send_nothing, items_go_round,
    other_letters_leave_a_bag_unchanged,
};
pub use set::Set;
pub use set_calls::{set_erase, set_insert};
pub use set_laws::{
    no_item_is_there_twice, other_letters_leave_a_set_unchanged, set_calls_send_what_they_say,
    sets_keep_their_order, sets_send_nothing, the_last_letter_decides,
};

#[cfg(test)]
mod tests;
