//! Why a test can't go on.
use comm_rank::CommFault;
use std::alloc::{AllocError, AllocFailed};
use thiserror::Error;
use ygm_route::LayoutFault;

/// Why the shard or the ranks of a test did not do what the test asked for.
#[derive(Clone, Copy, Debug, PartialEq, Eq, Error)]
pub enum RigFault {
    /// There is no rank of that number, or it wasn't added.
    #[error("there is no such rank")]
    NoSuchRank,
    /// There is no world of so many ranks.
    #[error("there is no such world")]
    NoSuchWorld,
    /// All ranks of the world were added already.
    #[error("all ranks were added")]
    AllAdded,
    /// The rank failed in an earlier turn, or another rank raised the stop.
    #[error("the rank is stopped")]
    Stopped,
    /// The rank has sent as many letters as it may.
    #[error("the rank may send no more letters")]
    CountFull,
    /// Letters were still on their way after so many turns.
    #[error("letters are on their way still")]
    Unsettled,
    /// A test gave bytes that don't fit into a letter.
    #[error("a letter is too long")]
    TooLong,
    /// Out of memory.
    #[error("out of memory")]
    NoMemory,
}

impl From<CommFault> for RigFault {
    fn from(fault: CommFault) -> Self {
        match fault {
            CommFault::Stopped => RigFault::Stopped,
            CommFault::CountFull(_) => RigFault::CountFull,
            CommFault::NoMemory => RigFault::NoMemory,
        }
    }
}

impl From<LayoutFault> for RigFault {
    fn from(_: LayoutFault) -> Self {
        RigFault::NoSuchWorld
    }
}

impl From<AllocError> for RigFault {
    fn from(_: AllocError) -> Self {
        RigFault::NoMemory
    }
}

impl<T: Drop> From<AllocFailed<T>> for RigFault {
    fn from(_: AllocFailed<T>) -> Self {
        RigFault::NoMemory
    }
}
