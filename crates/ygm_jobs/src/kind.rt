//! Which job a run does.

/// A job, by its name.
#[derive(Clone, Copy, Debug, PartialEq, Eq)]
pub enum JobKind {
    /// Counts equal lines: for each distinct line, in byte order, the number of lines equal to it.
    Tally,
    /// Finds the distinct lines: each once, in byte order.
    Distinct,
    /// Deals lines out to the ranks in turn: for each rank the number of lines that it got.
    Balance,
}
