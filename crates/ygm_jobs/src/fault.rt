//! Why the file of a rank is read no further.

use line_input::LineWhy;

/// What stopped a job from reading its file to the end.
#[derive(Clone, Copy, Debug, PartialEq, Eq)]
pub enum InputFault {
    /// A read of the file failed.
    Read,
    /// The first bad line of the file, counted from 1, and why it is bad.
    Bad { line: u64, why: LineWhy },
}
