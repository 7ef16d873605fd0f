//! The lines of a source, one in each turn of a reader, in whatever pieces their bytes come.
#![tactic(auto)]

mod laws;
mod line;
mod line_reader;
mod pieces;
mod why;

pub use laws::{
    lines_end_at_lf, one_cr_is_dropped, the_first_line_that_is_too_long,
    the_limits_are_these_numbers, turns_return_the_lines_in_order,
};
pub use line::Line;
pub use line_reader::{Got, LineFault, LineReader};
pub use pieces::{MAX_LINE, READING_SPACE};
pub use why::LineWhy;

#[cfg(test)]
mod tests;
