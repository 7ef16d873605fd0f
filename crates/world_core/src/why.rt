//! Why an event is refused.

use thiserror::Error;

/// The rule that an event breaks, in the order in which the rules are tried.
#[derive(Clone, Copy, Debug, PartialEq, Eq, Error)]
pub enum Why {
    /// A rank of the event, or a destination or a sender of one of its letters, isn't a rank of the world.
    #[error("there is no such rank")]
    NoSuchRank,
    /// A take from an empty link.
    #[error("nothing waits in the link")]
    NothingThere,
    /// A put of no letter.
    #[error("the batch is empty")]
    EmptyBatch,
    /// A put of a letter that is neither a data letter nor a control letter.
    #[error("a letter has a bad tag")]
    BadTag,
    /// A put of a control letter with another letter in its batch.
    #[error("a control letter isn't alone in its batch")]
    MixedControl,
    /// A put of a data letter over a link that doesn't end at the letter's next hop.
    #[error("a letter is put over the wrong link")]
    WrongHop,
    /// A put of another rank's data letter that isn't the first of those that this rank has to forward from that
    /// rank to that destination.
    #[error("a letter isn't the next to be forwarded")]
    NotHeld,
    /// A put of a data letter of its own by a rank that has put as many as it may.
    #[error("the rank has sent as many letters as it may")]
    TooManySent,
    /// A put of a data letter of its own by a rank that counted in a barrier that didn't end for it yet, and that took
    /// no data letter for itself since its last Count.
    #[error("the rank sends after it counted")]
    SentWhileCounted,
    /// A put of a control letter whose sender, destination or link isn't that of a Count or a Total.
    #[error("a control letter has a wrong sender, destination or link")]
    WrongControl,
    /// A put of a Count that isn't the rank's next, or before the rank took the Total of the round before.
    #[error("a Count comes too early")]
    CountEarly,
    /// A put of a Count by a rank that has a letter to forward.
    #[error("a Count comes before a letter is forwarded")]
    CountUnforwarded,
    /// A put of a Count that doesn't carry the numbers of letters that the rank sent and ran.
    #[error("a Count has wrong numbers")]
    CountWrong,
    /// A put of a Total that isn't the next to that rank, or before rank 0 took the Count of that round from each rank.
    #[error("a Total comes too early")]
    TotalEarly,
    /// A put of a Total that doesn't carry the sums of the Counts of its round.
    #[error("a Total has wrong sums")]
    TotalWrong,
}
