//! Files in memory.
ghost use Rattle.std.specs.Prelude.{◌≡◌, ◌≤◌, ◌++◌, [], ◌∷◌, None, IfOk, OnOk, OnErr, IsErrOf};
ghost use Rattle.ygm_io.specs.ByName.{last_named, bytes_named};
ghost use Rattle.ygm_io.specs.Memory.{MemoryOpenFailed, MemoryOpened};
ghost use Rattle.ygm_io.specs.Plan.{fresh_plan, NextFails};

use crate::named::{Named, add_named, find_named};
use crate::plan::FaultPlan;
use crate::{Files, MemSource, OpenFailed};
use std::alloc::{AllocError, Global};
use std::marker::Model;

#[derive(Debug, Drop)]
struct MemFile {
    bytes: Vec<u8>,
    fails: Vec<u64>,
}

impl Model for MemFile {
    ghost use Rattle.ygm_io.specs.ByName.{File};

    ghost Value = { File };

    ghost view = { λ file. record { bytes = file.bytes.items; fails = file.fails.items } };
}

impl MemFile {
    fn new(alloc: Global, bytes: &[u8], fails: &[u64]) -> Result<MemFile, AllocError>
        ensures { IfOk result (λ file. file ≡ record { bytes = bytes.now; fails = fails.now }) }
    {
        Ok(MemFile {
            bytes: bytes.to_vec(alloc)?,
            fails: fails.to_vec(alloc)?,
        })
    }

    fn open(&self, alloc: Global) -> Result<MemSource, AllocError>
        ensures bytes { IfOk result (λ source. source.left ≡ self.now.bytes) }
        ensures plan { IfOk result (λ source. source.plan ≡ fresh_plan self.now.fails) }
    {
        MemSource::new(alloc, &self.bytes, &self.fails)
    }
}

/// Files in memory, for tests: they expose their bytes, and an open fails at the calls that they were
/// given and at a name that wasn't added.
#[derive(Debug, Drop)]
pub struct MemFiles {
    alloc: Global,
    files: Vec<Named<MemFile>>,
    plan: FaultPlan,
}

impl MemFiles {
    /// No files, and no open that is to fail.
    pub fn new(alloc: Global) -> MemFiles
        ensures empty { result.files.items ≡ [] }
        ensures plan { result.plan ≡ fresh_plan [] }
    {
        MemFiles {
            alloc,
            files: Vec::new(alloc),
            plan: FaultPlan::without_faults(alloc),
        }
    }

    /// Adds a file with a copy of `bytes`. The reads whose numbers are in `fails` fail in each source
    /// that is opened from it, by their numbers in that source. Of files of one name the one that was
    /// added last is opened.
    pub fn add(&mut self, name: &str, bytes: &[u8], fails: &[u64]) -> Result<(), AllocError>
        ensures added { OnOk result (self.new.files.items ≡ self.old.files.items ++ (name.now, record { bytes = bytes.now; fails = fails.now }) ∷ []) }
        ensures unchanged { OnErr result (self.new.files.items ≡ self.old.files.items) }
        ensures same_plan { self.new ≡ record self.old { files = self.new.files } }
    {
        let file = MemFile::new(self.alloc, bytes, fails)?;
        add_named(self.alloc, &mut self.files, name, file)
    }

    /// Adds an open that is to fail, by its number. Opens are counted from 0.
    pub fn fail_open(&mut self, call: u64) -> Result<(), AllocError>
        ensures added { OnOk result (self.new.plan ≡
            record self.old.plan { fails = self.old.plan.fails ++ call ∷ [] }) }
        ensures unchanged { OnErr result (self.new ≡ self.old) }
        ensures same_files { self.new ≡ record self.old { plan = self.new.plan } }
    {
        self.plan.add(call)
    }

    /// How often an open has failed.
    pub fn faults(&self) -> u64
        ensures { result ≡ self.now.plan.faults }
    {
        self.plan.faults()
    }
}

impl Files for MemFiles {
    type Src = MemSource;

    ghost content = { λ files name. bytes_named name files.files.items };

    ghost faults = { λ files. files.plan.faults };

    /// Opens a copy of the file that was added last under the name. It fails at the calls that were
    /// given and at a name that wasn't added, and nowhere else. An open that is refused for lack of memory
    /// isn't counted as a call.
    fn open_named(&mut self, name: &str) -> Result<MemSource, OpenFailed>
        ensures opened { IfOk result (λ source. MemoryOpened name.now source self.old self.new) }
        ensures failed { IsErrOf result OpenFailed.Failed → MemoryOpenFailed name.now self.old self.new }
        ensures unchanged_without_memory { IsErrOf result OpenFailed.NoMemory → self.new ≡ self.old }
        ensures at_listed_calls { NextFails self.old.plan → IsErrOf result OpenFailed.Failed }
        ensures at_names_not_added { last_named name.now self.old.files.items ≡ None → IsErrOf result OpenFailed.Failed }
        ensures same_files { self.new ≡ record self.old { plan = self.new.plan } }
        ensures never_falls { self.old.plan.faults ≤ self.new.plan.faults }
    {
        let fails = self.plan.next_fails();
        match find_named(&self.files, name) {
            Some(file) if !fails => {
                let source = file.open(self.alloc)?;
                self.plan.count_call();
                Ok(source)
            }
            _ => {
                self.plan.count_fault();
                Err(OpenFailed::Failed)
            }
        }
    }
}
