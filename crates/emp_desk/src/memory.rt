//! Named files and an output, in memory.
ghost use Rattle.std.specs.Prelude.{◌≡◌, ◌≤◌, length, vec_len, ◌++◌, ℕ, List, [], Option, Some, None, IsTrue, IsSome, ◌↔◌, IfOk, OnOk, OnErr, take, option_copied};
ghost use Rattle.emp_desk.specs.Desk.{StoresPrefix, SaysPrefix};
ghost use Rattle.emp_desk.specs.Files.{Kept, bytes_of, Puts, Removes, IsSameFiles};
ghost use Rattle.emp_desk.specs.Memory.{files_of, output_of, contents_of};

use emp_list::memory::NoMemory;
use std::alloc::Global;
use std::collections::BTreeMap;

/// Files by name, and an output. It keeps the allocator that it was made with.
#[derive(Drop)]
pub struct Memory {
    alloc: Global,
    files: BTreeMap<String, Vec<u8>>,
    said: Vec<u8>,
}

impl Memory {
    /// No files, and an empty output.
    pub fn new(alloc: Global) -> Memory
        ensures files { (name : List ℕ) → files_of result name ≡ None }
        ensures output { output_of result ≡ [] }
    {
        Memory {
            alloc,
            files: BTreeMap::new(alloc),
            said: Vec::new(alloc),
        }
    }

    /// Whether a file of that name is kept.
    pub fn keeps(&self, name: &str) -> bool
        ensures { IsTrue result ↔ IsSome (files_of self.now name.now) }
    {
        self.files.contains_key(name)
    }

    /// The bytes of the file, `None` where no such name is kept.
    pub fn file(&self, name: &str) -> Option<&[u8]>
        ensures { option_copied result ≡ files_of self.now name.now }
    {
        match self.files.get(name) {
            Some(bytes) => Some(bytes.as_slice()),
            None => None,
        }
    }

    /// All bytes said so far.
    pub fn output(&self) -> &[u8]
        ensures { result.now ≡ output_of self.now }
    {
        self.said.as_slice()
    }

    /// Makes the file these bytes.
    #[tactic(auto, using(std::proofs::lemmas::Map::Text::text_keys))]
    pub fn put(&mut self, name: &str, bytes: &[u8]) -> Result<(), NoMemory>
        ensures ok { OnOk result (Puts name.now bytes.now (files_of self.old) (files_of self.new)) }
        ensures err { OnErr result (IsSameFiles (files_of self.old) (files_of self.new)) }
        ensures output { output_of self.new ≡ output_of self.old }
    {
        let key = String::from_str(self.alloc, name)?;
        let value = Vec::from_slice(self.alloc, bytes)?;
        self.files.insert(key, value)?;
        Ok(())
    }

    /// Takes the file away.
    #[tactic(auto, using(std::proofs::lemmas::Map::Text::text_keys))]
    pub fn remove(&mut self, name: &str)
        ensures files { Removes name.now (files_of self.old) (files_of self.new) }
        ensures output { output_of self.new ≡ output_of self.old }
    {
        self.files.remove(name);
    }

    /// Makes the file these bytes. Where there is no memory it is taken away.
    pub fn store(&mut self, name: &str, bytes: &[u8]) -> Result<(), NoMemory>
        ensures ok { OnOk result (Puts name.now bytes.now (files_of self.old) (files_of self.new)) }
        ensures err { OnErr result (Removes name.now (files_of self.old) (files_of self.new)) }
        ensures output { output_of self.new ≡ output_of self.old }
    {
        match self.put(name, bytes) {
            Ok(()) => Ok(()),
            Err(NoMemory) => {
                self.remove(name);
                Err(NoMemory)
            }
        }
    }

    /// The first `most` bytes of the file, or all of it where it is shorter. A file that is not kept is empty.
    pub fn load(&self, alloc: Global, name: &str, most: usize) -> Result<Vec<u8>, NoMemory>
        ensures bytes { IfOk result (λ v. v.items ≡ take most (bytes_of (files_of self.now) name.now)) }
        ensures short { IfOk result (λ v. vec_len v ≤ most) }
    {
        match self.file(name) {
            Some(bytes) => Ok(Vec::from_slice(alloc, first(bytes, most))?),
            None => Ok(Vec::new(alloc)),
        }
    }

    /// Makes the file the first `most` bytes. Where there is no memory it is taken away.
    pub fn store_part(&mut self, name: &str, bytes: &[u8], most: usize)
        ensures { StoresPrefix name.now bytes.now (contents_of self.old) (contents_of self.new) }
    {
        let _ = self.store(name, first(bytes, most));
    }

    /// Appends the first `most` bytes to the output, or none where there is no memory.
    pub fn append_part(&mut self, bytes: &[u8], most: usize)
        ensures said { SaysPrefix bytes.now (contents_of self.old) (contents_of self.new) }
        ensures files { IsSameFiles (files_of self.old) (files_of self.new) }
    {
        let _ = self.append(first(bytes, most));
    }

    /// Appends the bytes to the output.
    pub fn append(&mut self, bytes: &[u8]) -> Result<(), NoMemory>
        ensures ok { OnOk result (output_of self.new ≡ output_of self.old ++ bytes.now) }
        ensures err { OnErr result (output_of self.new ≡ output_of self.old) }
        ensures files { IsSameFiles (files_of self.old) (files_of self.new) }
    {
        self.said.extend_from_slice(bytes)?;
        Ok(())
    }
}

/// The first `most` elements, or all where there are fewer.
pub fn first(bytes: &[u8], most: usize) -> &[u8]
    ensures bytes { result.now ≡ take most bytes.now }
    ensures short { length result.now ≤ most }
{
    if most < bytes.len() {
        &bytes[..most]
    } else {
        bytes
    }
}
