//! Ranks that send each other letters. A rank holds what it sends until its links take it. Each letter runs at its
//! destination, and those of one sender run in the order in which they were sent.
#![tactic(auto)]

mod comm;
mod fault;
mod handler;
mod laws;
mod put_out;
#[cfg(test)]
mod tests;
mod turn;
mod waiting;

pub use comm::{Comm, Finished, NotMade};
pub use fault::CommFault;
pub use handler::{Handler, Outbound, Outgoing};
pub use laws::{
    a_control_letter_that_is_put_keeps_agreement,
    a_letter_that_is_sent_is_the_last_to_its_destination, a_turn_puts_data_letters_alone,
    what_came_has_run_or_waits, what_ran_is_the_beginning_of_what_was_sent,
    what_ran_is_what_came_without_what_waits,
};
pub use turn::Turn;
