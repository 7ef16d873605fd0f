//! What a poll returns.

/// What a poll came to. Barriers and rounds count from 0.
#[derive(Clone, Copy, Debug, PartialEq, Eq)]
pub enum Polled {
    /// The rank took the Total of this round, which ends this barrier. It is outside now.
    Left { barrier: u64, round: u64 },
    /// It is still inside.
    Waiting(Waiting),
}

/// Why a rank is still inside its barrier: the first of these that holds.
#[derive(Clone, Copy, Debug, PartialEq, Eq)]
pub enum Waiting {
    /// The poll took this many batches.
    Worked { took: u32 },
    /// No batch was taken, and a put to this rank found the link full.
    Link { to: u32 },
    /// At rank 0: it put its own Count of this round, and hasn't taken that of this rank, the lowest such.
    Count { rank: u32, round: u64 },
    /// The rank put its Count of this round, and hasn't taken the Total. Rank 0 has put that Total to all ranks.
    Total { round: u64 },
    /// The rank put this many Counts, all that it may, and took the last Total. It waits for ever.
    Spent { round: u64 },
}
