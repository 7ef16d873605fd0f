//! Calls of the system that a signal interrupts.

/// How often such a call is tried. No run comes to the end of it, but a loop has to end to be proved.
pub const MOST_TRIES: u64 = u64::MAX;
