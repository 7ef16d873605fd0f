//! Files that never fail to open.
ghost use Rattle.std.specs.Prelude.{◌≡◌, ◌≢◌, [], List, ℕ, Some, OnOk, OnErr};
ghost use Rattle.std.specs.Option.{option_map_or};
ghost use Rattle.ygm_io.specs.ByName.{last_named};

use crate::named::{Named, add_named, find_named};
use crate::{CalmSource, Files, OpenFailed};
use std::alloc::{AllocError, Global};

/// Files in memory that never fail. A name that wasn't added holds no bytes.
#[derive(Debug, Drop)]
pub struct CalmFiles {
    alloc: Global,
    files: Vec<Named<Vec<u8>>>,
}

impl CalmFiles {
    /// No files: each name holds no bytes.
    pub fn new(alloc: Global) -> CalmFiles
        ensures { result.files.items ≡ [] }
    {
        CalmFiles {
            alloc,
            files: Vec::new(alloc),
        }
    }

    /// Adds a file with a copy of `bytes`. Of files of one name the one that was added last is opened.
    #[tactic(auto, using(crate::proofs::ByName::LastAdded::last_same, crate::proofs::ByName::LastAdded::last_other))]
    pub fn add(&mut self, name: &str, bytes: &[u8]) -> Result<(), AllocError>
        ensures added { OnOk result
            (option_map_or (λ held. held.items) (last_named name.now self.new.files.items) [] ≡ bytes.now) }
        ensures others { OnOk result ((other : List ℕ) → other ≢ name.now →
            last_named other self.new.files.items ≡ last_named other self.old.files.items) }
        ensures unchanged { OnErr result (self.new.files.items ≡ self.old.files.items) }
    {
        let held = bytes.to_vec(self.alloc)?;
        add_named(self.alloc, &mut self.files, name, held)
    }
}

impl Files for CalmFiles {
    type Src = CalmSource;

    ghost content = { λ files name.
        Some (option_map_or (λ held. held.items) (last_named name files.files.items) []) };

    ghost faults = { λ _. 0 };

    /// Opens a copy of the file that was added last under the name, or no bytes where none was.
    fn open_named(&mut self, name: &str) -> Result<CalmSource, OpenFailed> {
        match find_named(&self.files, name) {
            Some(held) => Ok(CalmSource::new(self.alloc, held)?),
            None => Ok(CalmSource::new(self.alloc, &[])?),
        }
    }
}
