//! The desk of real files and standard output: the one place where the program meets the system.
//!
//! No clause says which bytes a file holds or where they go, so this desk tells nothing of its files and its output. What it reads of
//! an open file and writes to one is that of `streams`; that it opens the file of the name is tried by cases and not proved.
ghost use Rattle.std.specs.Prelude.{◌≡◌, ◌≢◌, ◌≤◌, ℕ, None, Ok, Err, IfOk, OnOk, OnErr, vec_len};
ghost use Rattle.emp_desk.specs.Desk.{Place, Rose};

use crate::streams::{NotTaken, read_first, write_whole};
use emp_desk::desk::{Desk, LoadFault, StoreFault};
use std::alloc::Global;
use std::rt::Files;
use std::{fs, io};

/// The files of the system by their paths, and standard output.
///
/// It counts its failures, and that one number is the count of every place. It tells nothing of what it holds.
#[derive(Drop)]
pub struct FileDesk<R: Files + Print + Drop> {
    rt: R,
    failures: u64,
}

impl<R: Files + Print + Drop> FileDesk<R> {
    /// A desk over this runtime, with no failure yet.
    pub fn new(rt: R) -> FileDesk<R>
        ensures { (place : Place) → ⟦<FileDesk<R> as Desk>⟧.faults result place ≡ 0 }
    {
        FileDesk { rt, failures: 0 }
    }

    fn note_failure(&mut self)
        ensures rose { Rose self.old.failures self.new.failures }
        ensures not_fallen { self.old.failures ≤ self.new.failures }
    {
        self.failures = self.failures.saturating_add(1);
    }

    fn read_file(&self, alloc: Global, name: &str, most: usize) -> Result<Vec<u8>, LoadFault>
        ensures { IfOk result (λ bytes. vec_len bytes ≤ most) }
    {
        let Ok(mut file) = fs::open(&self.rt, name) else {
            return Err(LoadFault::Failed);
        };
        read_first(alloc, &mut file, most)
    }

    fn write_file(&self, name: &str, bytes: &[u8]) -> Result<(), NotTaken> {
        let Ok(mut file) = fs::create(&self.rt, name) else {
            return Err(NotTaken);
        };
        write_whole(&mut file, bytes)
    }
}

impl<R: Files + Print + Drop> Desk for FileDesk<R> {
    ghost tells = { λ desk. None };

    ghost faults = { λ desk place. desk.failures };

    /// A file that cannot be opened or read is a failure, also one that is not there.
    fn load(&mut self, alloc: Global, name: &str, most: usize) -> Result<Vec<u8>, LoadFault> {
        let loaded = self.read_file(alloc, name, most);
        if let Err(LoadFault::Failed) = loaded {
            self.note_failure();
        }
        loaded
    }

    /// Takes no memory, and so never answers `NoMemory`. A file that cannot be opened stays as it was.
    fn store(&mut self, name: &str, bytes: &[u8]) -> Result<(), StoreFault>
        ensures failed { OnErr result (Rose self.old.failures self.new.failures) }
        ensures not_fallen { self.old.failures ≤ self.new.failures }
        ensures stays { OnOk result (self.new.failures ≡ self.old.failures) }
        ensures takes_no_memory { result ≢ Err StoreFault.NoMemory }
    {
        match self.write_file(name, bytes) {
            Ok(()) => Ok(()),
            Err(NotTaken) => {
                self.note_failure();
                Err(StoreFault::Failed)
            }
        }
    }

    /// Takes no memory, and so never answers `NoMemory`.
    fn say(&mut self, bytes: &[u8]) -> Result<(), StoreFault>
        ensures failed { OnErr result (Rose self.old.failures self.new.failures) }
        ensures not_fallen { self.old.failures ≤ self.new.failures }
        ensures stays { OnOk result (self.new.failures ≡ self.old.failures) }
        ensures takes_no_memory { result ≢ Err StoreFault.NoMemory }
    {
        match write_whole(&mut io::writer(&self.rt), bytes) {
            Ok(()) => Ok(()),
            Err(NotTaken) => {
                self.note_failure();
                Err(StoreFault::Failed)
            }
        }
    }
}
