//! Why a rank couldn't go on.
ghost use Rattle.std.specs.Prelude.{◌≡◌};
ghost use Rattle.comm_rank.specs.declared.fault.CommFault.TheVariants.{CountFull, NoMemory};

use msg_codec::AtLimit;
use std::alloc::{AllocError, AllocFailed};
use thiserror::Error;

/// Why a letter wasn't sent, or a turn failed.
#[derive(Clone, Copy, Debug, PartialEq, Eq, Error)]
pub enum CommFault {
    /// A rank had raised the stop. The turn that met it, by itself or in a poll or a barrier, did nothing, and its rank is
    /// stopped for good. A send never returns this.
    #[error("a rank has stopped")]
    Stopped,
    /// The rank has sent as many letters as it may. Each later send is refused too. After a turn, a poll or a
    /// barrier the rank is stopped for good.
    #[error("the rank is at its limit of letters")]
    CountFull(AtLimit),
    /// Out of memory. A send changed nothing and may be tried again; after a turn, a poll or a barrier the rank is
    /// stopped for good.
    #[error("out of memory")]
    NoMemory,
}

impl From<AtLimit> for CommFault {
    ghost from_gives = { λ at e. e ≡ CountFull at };

    fn from(at: AtLimit) -> Self {
        CommFault::CountFull(at)
    }
}

impl From<AllocError> for CommFault {
    ghost from_gives = { λ _ e. e ≡ NoMemory };

    fn from(_: AllocError) -> Self {
        CommFault::NoMemory
    }
}

impl<T: Drop> From<AllocFailed<T>> for CommFault {
    ghost from_gives = { λ _ e. e ≡ NoMemory };

    fn from(_: AllocFailed<T>) -> Self {
        CommFault::NoMemory
    }
}
