//! A counting set that is spread over ranks: each rank keeps the items that it owns, with their counts.
#![tactic(auto)]

mod counting;
mod insert;
mod item_count;
mod laws;

pub use counting::{Counting, MAX_ITEM};
pub use insert::count_insert;
pub use item_count::{item_count_body, read_item_count};
pub use laws::{
    a_new_item_goes_last, adds_of_one_are_counted, an_insert_adds_one, counting_sends_nothing,
    counts_are_sums, item_counts_are_pairs, item_counts_are_read_again, letters_add_up,
    no_item_stands_twice, no_two_item_counts_are_spelled_alike,
};

#[cfg(test)]
mod tests;
