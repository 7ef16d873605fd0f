//! Letters and the batches that carry them, how they and the values in their bodies are encoded, control
//! letters, and the counter with which a rank counts its letters.
#![tactic(auto)]

mod batch;
mod body;
mod control;
mod counter;
mod encoding;
mod laws;
mod letter;
mod letters;
mod whole;
mod wire;

pub use batch::Batch;
pub use body::{Body, Body2, IN_PLACE, MAX_BODY, length_field};
pub use control::{Control, control_of};
pub use counter::{AtLimit, Counter};
pub use laws::{
    control_letters_are_these, controls_have_letters_of_their_own, no_spelling_begins_another,
    no_two_lists_are_spelled_alike, the_limit_is_this_number, what_was_put_is_read_again,
};
pub use letter::{Letter, LetterRef};
pub use letters::Letters;
pub use whole::read_whole;
pub use wire::{Wire, WireFault, body_at, number_at};

#[cfg(test)]
mod tests;
