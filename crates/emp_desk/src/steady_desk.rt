//! A desk in memory whose loads never fail but for want of memory.
ghost use Rattle.std.specs.Prelude.{◌≡◌, ◌≤◌, vec_len, ◌≢◌, ℕ, List, [], Option, Some, None, Result, Ok, Err, IsSome, IfOk, IfErr, OnOk, OnErr, option_copied};
ghost use Rattle.emp_desk.specs.Desk.{Place, loads, stores, output, Contents, Told, KeepsAll, Loads, Stores, StoresPrefix, Says, SaysPrefix, Rose, NoneFalls, OnlyAt};
ghost use Rattle.emp_desk.specs.Files.{Puts, Removes, IsSameFiles};
ghost use Rattle.emp_desk.specs.SteadyDesk.{kept, spoken, told};

use crate::desk::{Desk, LoadFault, StoreFault};
use crate::memory::Memory;
use emp_list::memory::NoMemory;
use std::alloc::Global;

/// Files and an output in memory. A name that it does not keep reads as an empty file.
///
/// No call answers `Failed`, and every count of faults stays 0.
#[derive(Drop)]
pub struct SteadyDesk {
    memory: Memory,
}

impl SteadyDesk {
    /// No files, and an empty output. The desk keeps the allocator, and takes no memory yet.
    pub fn new(alloc: Global) -> SteadyDesk
        ensures files { (name : List ℕ) → kept result name ≡ None }
        ensures output { spoken result ≡ [] }
    {
        SteadyDesk {
            memory: Memory::new(alloc),
        }
    }

    /// Makes the file these bytes, with no count of a call. A refusal changes nothing.
    pub fn put(&mut self, name: &str, bytes: &[u8]) -> Result<(), NoMemory>
        ensures ok { OnOk result (Puts name.now bytes.now (kept self.old) (kept self.new)) }
        ensures err { OnErr result (IsSameFiles (kept self.old) (kept self.new)) }
        ensures output { spoken self.new ≡ spoken self.old }
    {
        self.memory.put(name, bytes)
    }

    /// The bytes of the file, `None` exactly where the desk keeps no such name.
    pub fn file(&self, name: &str) -> Option<&[u8]>
        ensures { option_copied result ≡ kept self.now name.now }
    {
        self.memory.file(name)
    }

    /// All bytes said so far.
    pub fn output(&self) -> &[u8]
        ensures { result.now ≡ spoken self.now }
    {
        self.memory.output()
    }
}

impl Desk for SteadyDesk {
    ghost tells = { λ desk. Some (told desk) };

    ghost faults = { λ desk place. 0 };

    fn load(&mut self, alloc: Global, name: &str, most: usize) -> Result<Vec<u8>, LoadFault>
        ensures bytes { IfOk result (λ v. Loads name.now most v.items (told self.old) (told self.new)) }
        ensures short { IfOk result (λ v. vec_len v ≤ most) }
        ensures keeps { KeepsAll (told self.old) (told self.new) }
        ensures files { IsSameFiles (kept self.old) (kept self.new) }
        ensures never_fails { IfErr result (λ e. e ≡ LoadFault.NoMemory) }
    {
        match self.memory.load(alloc, name, most) {
            Ok(bytes) => Ok(bytes),
            Err(NoMemory) => Err(LoadFault::NoMemory),
        }
    }

    fn store(&mut self, name: &str, bytes: &[u8]) -> Result<(), StoreFault>
        ensures stored { OnOk result (Stores name.now bytes.now (told self.old) (told self.new)) }
        ensures cut { OnErr result (StoresPrefix name.now bytes.now (told self.old) (told self.new)) }
        ensures files { OnOk result (Puts name.now bytes.now (kept self.old) (kept self.new)) }
        ensures no_room { OnErr result (Removes name.now (kept self.old) (kept self.new)) }
        ensures never_fails { IfErr result (λ e. e ≡ StoreFault.NoMemory) }
    {
        match self.memory.store(name, bytes) {
            Ok(()) => Ok(()),
            Err(NoMemory) => Err(StoreFault::NoMemory),
        }
    }

    fn say(&mut self, bytes: &[u8]) -> Result<(), StoreFault>
        ensures said { OnOk result (Says bytes.now (told self.old) (told self.new)) }
        ensures no_room { OnErr result (KeepsAll (told self.old) (told self.new)) }
        ensures cut { OnErr result (SaysPrefix bytes.now (told self.old) (told self.new)) }
        ensures files { IsSameFiles (kept self.old) (kept self.new) }
        ensures never_fails { IfErr result (λ e. e ≡ StoreFault.NoMemory) }
    {
        match self.memory.append(bytes) {
            Ok(()) => Ok(()),
            Err(NoMemory) => Err(StoreFault::NoMemory),
        }
    }
}
