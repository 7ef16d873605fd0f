//! What sources are opened from, by name.
ghost use Rattle.std.specs.Prelude.{◌≡◌, ◌≤◌, List, ℕ, Option, IfOk, IsErrOf};
ghost use Rattle.rising_counts.specs.Rising.{Rose};
ghost use Rattle.ygm_io.specs.Opens.{FileOpened};
ghost use Rattle.ygm_io.specs.declared.files.OpenFailed.TheVariants.{NoMemory};

use crate::Source;
use std::alloc::AllocError;
use thiserror::Error;

/// Why a name couldn't be opened.
#[derive(Clone, Copy, Debug, PartialEq, Eq, Error)]
pub enum OpenFailed {
    /// The count of faults of the files rose.
    #[error("the file can't be opened")]
    Failed,
    #[error("out of memory")]
    NoMemory,
}

impl From<AllocError> for OpenFailed {
    ghost from_gives = { λ _ error. error ≡ NoMemory };

    fn from(_: AllocError) -> OpenFailed {
        OpenFailed::NoMemory
    }
}

/// What sources are opened from, by name. An open doesn't change what the names hold, so the same name
/// may be opened again.
pub trait Files {
    type Src: Source + Send + Drop;

    /// The bytes that a name holds, where the files expose them.
    ghost content: { Self → List ℕ → Option (List ℕ) };

    /// How often an open has failed, a count that never falls.
    ghost faults: { Self → ℕ };

    /// Opens the source of that name.
    fn open_named(&mut self, name: &str) -> Result<Self::Src, OpenFailed>
        ensures opened { IfOk result (λ src.
            FileOpened (Self.Src.left src) (Self.Src.faults src) (content self.old name.now) (faults self.old) (faults self.new)) }
        ensures cause { IsErrOf result OpenFailed.Failed → Rose (faults self.old) (faults self.new) }
        ensures stands_without_memory { IsErrOf result OpenFailed.NoMemory → faults self.new ≡ faults self.old }
        ensures same { (other : List ℕ) → content self.new other ≡ content self.old other }
        ensures never_falls { faults self.old ≤ faults self.new };
}
