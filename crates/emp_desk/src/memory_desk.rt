//! A desk in memory that fails at the calls that it is told to fail at.
ghost use Rattle.std.specs.Prelude.{◌≡◌, ◌≤◌, vec_len, ◌≢◌, ◌∷◌, ◌++◌, ℕ, List, [], Option, Some, None, Result, Ok, Err, IsSome, IfOk, IfErr, OnOk, OnErr, option_copied};
ghost use Rattle.emp_desk.specs.Desk.{Place, loads, stores, output, Contents, Told, KeepsAll, Loads, Stores, StoresPrefix, Says, SaysPrefix, Rose, NoneFalls, OnlyAt};
ghost use Rattle.emp_desk.specs.Files.{Puts, IsSameFiles};
ghost use Rattle.emp_desk.specs.Counts.{HasSameCounts, HasOneMoreAt};
ghost use Rattle.emp_desk.specs.MemoryDesk.{kept, spoken, told, calls_of, to_fail_of, next_call, count_at, LoadAnswers, StoreAnswers, LoadFaultCounts, StoreFaultCounts, LoadCounts, StoreCounts, FailsToLoad, IsToFail};

use crate::call_log::CallLog;
use crate::desk::{Desk, LoadFault, StoreFault};
use crate::memory::Memory;
use emp_list::memory::NoMemory;
use std::alloc::Global;

/// Files and an output in memory.
///
/// It counts its calls of `load`, `store` and `say`, and fails at those whose numbers it was given, beginning with 1. A
/// load of a name that it does not keep fails too. For each call that failed it keeps an entry, and the count of a
/// place is the number of its entries. Where there is no memory for the entry, the call answers `NoMemory`.
#[derive(Drop)]
pub struct MemoryDesk {
    memory: Memory,
    log: CallLog,
}

impl MemoryDesk {
    /// No files, an empty output and no fault. The desk keeps the allocator, and takes no memory yet.
    pub fn new(alloc: Global) -> MemoryDesk
        ensures files { (name : List ℕ) → kept result name ≡ None }
        ensures output { spoken result ≡ [] }
        ensures calls { calls_of result ≡ 0 }
        ensures to_fail { to_fail_of result ≡ [] }
        ensures counts { (place : Place) → count_at result place ≡ 0 }
    {
        MemoryDesk {
            memory: Memory::new(alloc),
            log: CallLog::new(alloc),
        }
    }

    /// Makes the file these bytes, which is no call that counts. A refusal changes nothing.
    pub fn put(&mut self, name: &str, bytes: &[u8]) -> Result<(), NoMemory>
        ensures ok { OnOk result (Puts name.now bytes.now (kept self.old) (kept self.new)) }
        ensures err { OnErr result (IsSameFiles (kept self.old) (kept self.new)) }
        ensures output { spoken self.new ≡ spoken self.old }
        ensures calls { calls_of self.new ≡ calls_of self.old }
        ensures to_fail { to_fail_of self.new ≡ to_fail_of self.old }
        ensures counts { HasSameCounts (count_at self.old) (count_at self.new) }
    {
        self.memory.put(name, bytes)
    }

    /// Adds a number to the list of calls that are to fail. A refusal changes nothing.
    pub fn fail(&mut self, call: u64) -> Result<(), NoMemory>
        ensures ok { OnOk result (to_fail_of self.new ≡ to_fail_of self.old ++ call ∷ []) }
        ensures err { OnErr result (to_fail_of self.new ≡ to_fail_of self.old) }
        ensures files { IsSameFiles (kept self.old) (kept self.new) }
        ensures output { spoken self.new ≡ spoken self.old }
        ensures calls { calls_of self.new ≡ calls_of self.old }
        ensures counts { HasSameCounts (count_at self.old) (count_at self.new) }
    {
        self.log.fail(call)
    }

    /// The bytes of the file, `None` exactly where the desk keeps no such name.
    pub fn file(&self, name: &str) -> Option<&[u8]>
        ensures { option_copied result ≡ kept self.now name.now }
    {
        self.memory.file(name)
    }

    /// All bytes said so far.
    pub fn output(&self) -> &[u8]
        ensures { result.now ≡ spoken self.now }
    {
        self.memory.output()
    }

    /// A load that fails: its entry, and nothing else.
    fn fail_load(&mut self, name: &str) -> LoadFault
        ensures memory { self.new.memory ≡ self.old.memory }
        ensures calls { calls_of self.new ≡ calls_of self.old }
        ensures to_fail { to_fail_of self.new ≡ to_fail_of self.old }
        ensures counts { LoadFaultCounts name.now (count_at self.old) (count_at self.new) result }
    {
        match self.log.note_load(name) {
            Ok(()) => LoadFault::Failed,
            Err(NoMemory) => LoadFault::NoMemory,
        }
    }

    /// A store that fails: its entry, and half of the bytes. With no room for the entry, the file is taken away.
    fn fail_store(&mut self, name: &str, bytes: &[u8]) -> StoreFault
        ensures cut { StoresPrefix name.now bytes.now (told self.old) (told self.new) }
        ensures no_room { result ≡ StoreFault.NoMemory → kept self.new name.now ≡ None }
        ensures calls { calls_of self.new ≡ calls_of self.old }
        ensures to_fail { to_fail_of self.new ≡ to_fail_of self.old }
        ensures counts { StoreFaultCounts (stores name.now) (count_at self.old) (count_at self.new) result }
    {
        match self.log.note_store(name) {
            Ok(()) => {
                self.memory.store_part(name, bytes, bytes.len() / 2);
                StoreFault::Failed
            }
            Err(NoMemory) => {
                self.memory.remove(name);
                StoreFault::NoMemory
            }
        }
    }

    /// A say that fails: its entry, and half of the bytes. With no room for the entry nothing is said.
    fn fail_say(&mut self, bytes: &[u8]) -> StoreFault
        ensures cut { SaysPrefix bytes.now (told self.old) (told self.new) }
        ensures no_room { result ≡ StoreFault.NoMemory → spoken self.new ≡ spoken self.old }
        ensures files { IsSameFiles (kept self.old) (kept self.new) }
        ensures calls { calls_of self.new ≡ calls_of self.old }
        ensures to_fail { to_fail_of self.new ≡ to_fail_of self.old }
        ensures counts { StoreFaultCounts output (count_at self.old) (count_at self.new) result }
    {
        match self.log.note_say() {
            Ok(()) => {
                self.memory.append_part(bytes, bytes.len() / 2);
                StoreFault::Failed
            }
            Err(NoMemory) => StoreFault::NoMemory,
        }
    }
}

impl Desk for MemoryDesk {
    ghost tells = { λ desk. Some (told desk) };

    ghost faults = { count_at };

    /// Fails exactly where the call is to fail or the name is not kept, unless there is no memory.
    fn load(&mut self, alloc: Global, name: &str, most: usize) -> Result<Vec<u8>, LoadFault>
        ensures bytes { IfOk result (λ v. Loads name.now most v.items (told self.old) (told self.new)) }
        ensures short { IfOk result (λ v. vec_len v ≤ most) }
        ensures keeps { KeepsAll (told self.old) (told self.new) }
        ensures failed { IfErr result (λ e. e ≡ LoadFault.Failed → Rose (count_at self.old (loads name.now)) (count_at self.new (loads name.now))) }
        ensures none_falls { NoneFalls (count_at self.old) (count_at self.new) }
        ensures others { OnlyAt (loads name.now) (count_at self.old) (count_at self.new) }
        ensures answers { LoadAnswers name.now self.old result }
        ensures counts { LoadCounts name.now (count_at self.old) (count_at self.new) result }
        ensures files { IsSameFiles (kept self.old) (kept self.new) }
        ensures calls { calls_of self.new ≡ next_call self.old }
        ensures to_fail { to_fail_of self.new ≡ to_fail_of self.old }
    {
        let is_to_fail = self.log.count_call();
        if is_to_fail || !self.memory.keeps(name) {
            return Err(self.fail_load(name));
        }
        match self.memory.load(alloc, name, most) {
            Ok(bytes) => Ok(bytes),
            Err(NoMemory) => Err(LoadFault::NoMemory),
        }
    }

    /// Fails exactly where the call is to fail, unless there is no memory. Then the file holds half of the bytes, or
    /// none where there is no memory for them. After `NoMemory` the desk does not keep the file.
    fn store(&mut self, name: &str, bytes: &[u8]) -> Result<(), StoreFault>
        ensures stored { OnOk result (Stores name.now bytes.now (told self.old) (told self.new)) }
        ensures cut { OnErr result (StoresPrefix name.now bytes.now (told self.old) (told self.new)) }
        ensures failed { IfErr result (λ e. e ≡ StoreFault.Failed → Rose (count_at self.old (stores name.now)) (count_at self.new (stores name.now))) }
        ensures none_falls { NoneFalls (count_at self.old) (count_at self.new) }
        ensures others { OnlyAt (stores name.now) (count_at self.old) (count_at self.new) }
        ensures keeps_name { OnOk result (kept self.new name.now ≡ Some bytes.now) }
        ensures no_room { IfErr result (λ e. e ≡ StoreFault.NoMemory → kept self.new name.now ≡ None) }
        ensures answers { StoreAnswers self.old result }
        ensures counts { StoreCounts (stores name.now) (count_at self.old) (count_at self.new) result }
        ensures calls { calls_of self.new ≡ next_call self.old }
        ensures to_fail { to_fail_of self.new ≡ to_fail_of self.old }
    {
        if self.log.count_call() {
            return Err(self.fail_store(name, bytes));
        }
        match self.memory.store(name, bytes) {
            Ok(()) => Ok(()),
            Err(NoMemory) => Err(StoreFault::NoMemory),
        }
    }

    /// Fails exactly where the call is to fail, unless there is no memory. Then half of the bytes were appended, or none
    /// where there is no memory for them. `NoMemory` changes no output.
    fn say(&mut self, bytes: &[u8]) -> Result<(), StoreFault>
        ensures said { OnOk result (Says bytes.now (told self.old) (told self.new)) }
        ensures cut { OnErr result (SaysPrefix bytes.now (told self.old) (told self.new)) }
        ensures failed { IfErr result (λ e. e ≡ StoreFault.Failed → Rose (count_at self.old output) (count_at self.new output)) }
        ensures none_falls { NoneFalls (count_at self.old) (count_at self.new) }
        ensures others { OnlyAt output (count_at self.old) (count_at self.new) }
        ensures no_room { IfErr result (λ e. e ≡ StoreFault.NoMemory → spoken self.new ≡ spoken self.old) }
        ensures answers { StoreAnswers self.old result }
        ensures counts { StoreCounts output (count_at self.old) (count_at self.new) result }
        ensures files { IsSameFiles (kept self.old) (kept self.new) }
        ensures calls { calls_of self.new ≡ next_call self.old }
        ensures to_fail { to_fail_of self.new ≡ to_fail_of self.old }
    {
        if self.log.count_call() {
            return Err(self.fail_say(bytes));
        }
        match self.memory.append(bytes) {
            Ok(()) => Ok(()),
            Err(NoMemory) => Err(StoreFault::NoMemory),
        }
    }
}
