//! The numbers of the calls of a desk, those that are to fail, and an entry for each that failed.
ghost use Rattle.std.specs.Prelude.{◌≡◌, ◌∷◌, ◌++◌, ◌↔◌, ℕ, [], IsTrue, OnOk, OnErr};
ghost use Rattle.emp_desk.specs.Desk.{Place, loads, stores, output};
ghost use Rattle.emp_desk.specs.Counts.{HasSameCounts, HasOneMoreAt};
ghost use Rattle.emp_desk.specs.CallLog.{count_in, next_in, IsNextToFail};

use emp_list::memory::NoMemory;
use std::alloc::Global;

/// A call that failed, by its place.
#[derive(Drop)]
pub enum Fault {
    Load(String),
    Store(String),
    Say,
}

/// Which calls there were, which are to fail and which did.
#[derive(Drop)]
pub struct CallLog {
    alloc: Global,
    calls: u64,
    to_fail: Vec<u64>,
    failed: Vec<Fault>,
}

impl CallLog {
    /// No call yet, and none that is to fail.
    pub fn new(alloc: Global) -> CallLog
        ensures calls { result.calls ≡ 0 }
        ensures to_fail { result.to_fail.items ≡ [] }
        ensures counts { (place : Place) → count_in result place ≡ 0 }
    {
        CallLog {
            alloc,
            calls: 0,
            to_fail: Vec::new(alloc),
            failed: Vec::new(alloc),
        }
    }

    /// Adds a number to those of the calls that are to fail.
    pub fn fail(&mut self, call: u64) -> Result<(), NoMemory>
        ensures ok { OnOk result (self.new.to_fail.items ≡ self.old.to_fail.items ++ call ∷ []) }
        ensures err { OnErr result (self.new.to_fail.items ≡ self.old.to_fail.items) }
        ensures calls { self.new.calls ≡ self.old.calls }
        ensures counts { HasSameCounts (count_in self.old) (count_in self.new) }
    {
        self.to_fail.push(call)?;
        Ok(())
    }

    /// Counts one more call, and says whether it is to fail.
    pub fn count_call(&mut self) -> bool
        ensures fails { IsTrue result ↔ IsNextToFail self.old }
        ensures calls { self.new.calls ≡ next_in self.old }
        ensures to_fail { self.new.to_fail.items ≡ self.old.to_fail.items }
        ensures counts { HasSameCounts (count_in self.old) (count_in self.new) }
    {
        self.calls = self.calls.saturating_add(1);
        self.to_fail.contains(&self.calls)
    }

    /// Keeps an entry of a load that failed.
    #[tactic(auto, using(crate::proofs::Entries::entries))]
    pub fn note_load(&mut self, name: &str) -> Result<(), NoMemory>
        ensures ok { OnOk result (HasOneMoreAt (loads name.now) (count_in self.old) (count_in self.new)) }
        ensures err { OnErr result (HasSameCounts (count_in self.old) (count_in self.new)) }
        ensures calls { self.new.calls ≡ self.old.calls }
        ensures to_fail { self.new.to_fail.items ≡ self.old.to_fail.items }
    {
        let name = String::from_str(self.alloc, name)?;
        self.failed.push(Fault::Load(name))?;
        Ok(())
    }

    /// Keeps an entry of a store that failed.
    #[tactic(auto, using(crate::proofs::Entries::entries))]
    pub fn note_store(&mut self, name: &str) -> Result<(), NoMemory>
        ensures ok { OnOk result (HasOneMoreAt (stores name.now) (count_in self.old) (count_in self.new)) }
        ensures err { OnErr result (HasSameCounts (count_in self.old) (count_in self.new)) }
        ensures calls { self.new.calls ≡ self.old.calls }
        ensures to_fail { self.new.to_fail.items ≡ self.old.to_fail.items }
    {
        let name = String::from_str(self.alloc, name)?;
        self.failed.push(Fault::Store(name))?;
        Ok(())
    }

    /// Keeps an entry of a say that failed.
    #[tactic(auto, using(crate::proofs::Entries::entries))]
    pub fn note_say(&mut self) -> Result<(), NoMemory>
        ensures ok { OnOk result (HasOneMoreAt output (count_in self.old) (count_in self.new)) }
        ensures err { OnErr result (HasSameCounts (count_in self.old) (count_in self.new)) }
        ensures calls { self.new.calls ≡ self.old.calls }
        ensures to_fail { self.new.to_fail.items ≡ self.old.to_fail.items }
    {
        self.failed.push(Fault::Say)?;
        Ok(())
    }
}
