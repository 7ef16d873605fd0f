//! The files of the system.
ghost use Rattle.std.specs.Prelude.{◌≡◌, ◌≤◌, None, IfOk, IsErrOf};
ghost use Rattle.rising_counts.specs.Rising.{Rose, next_count};
ghost use Rattle.ygm_io.specs.Opens.{FileOpened};
ghost use Rattle.ygm_io.specs.declared.files.OpenFailed.{OpenFailed};

use crate::tries::MOST_TRIES;
use crate::{Files, OpenFailed, StdSource};
use rising_counts::one_more;
use std::fs;
use std::io::ErrorKind;

/// The files of the system, by their paths. They expose no bytes, and their count of faults stays at
/// `u64::MAX` once it is there.
#[derive(Debug, Drop)]
pub struct StdFiles<R> {
    runtime: R,
    faults: u64,
}

impl<R: std::rt::Files> StdFiles<R> {
    /// The files that `runtime` reaches. It may be a reference.
    pub fn new(runtime: R) -> StdFiles<R>
        ensures fresh { result.faults ≡ 0 }
        ensures same { result.runtime ≡ runtime }
    {
        StdFiles { runtime, faults: 0 }
    }

    /// How often an open has failed.
    pub fn faults(&self) -> u64
        ensures { result ≡ self.now.faults }
    {
        self.faults
    }
}

impl<R: std::rt::Files> Files for StdFiles<R>
where
    R::File: Send,
{
    type Src = StdSource<R::File>;

    ghost content = { λ _ _. None };

    ghost faults = { λ files. files.faults };

    /// Opens a file for reading. An open that a signal interrupts is tried again, and one to which the
    /// system refuses memory is `NoMemory`.
    fn open_named(&mut self, name: &str) -> Result<StdSource<R::File>, OpenFailed>
        ensures opened { IfOk result (λ source. FileOpened None source.faults None self.old.faults self.new.faults) }
        ensures cause { IsErrOf result OpenFailed.Failed → Rose self.old.faults self.new.faults }
        ensures stands_without_memory { IsErrOf result OpenFailed.NoMemory → self.new.faults ≡ self.old.faults }
        ensures never_falls { self.old.faults ≤ self.new.faults }
        ensures counted_fault { IsErrOf result OpenFailed.Failed → self.new.faults ≡ next_count self.old.faults }
    {
        for _ in 0..MOST_TRIES {
            match fs::open(&self.runtime, name) {
                Ok(file) => return Ok(StdSource::new(file)),
                Err(error) => match error.kind() {
                    ErrorKind::Interrupted => {}
                    ErrorKind::OutOfMemory => return Err(OpenFailed::NoMemory),
                    _ => break,
                },
            }
        }
        self.faults = one_more(self.faults);
        Err(OpenFailed::Failed)
    }
}
