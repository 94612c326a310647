//! The trait of files and output.
ghost use Rattle.std.specs.Prelude.{◌≡◌, ◌≤◌, ℕ, vec_len, Option, IsSome, IfOk, IfErr, OnOk, OnErr};
ghost use Rattle.emp_desk.specs.Desk.{Place, loads, stores, output, Contents, Told, KeepsAll, Loads, Stores, StoresPrefix, Says, SaysPrefix, Rose, NoneFalls, OnlyAt};

use std::alloc::Global;

/// Why a load gave no bytes.
#[derive(Clone, Copy, Debug, PartialEq, Eq)]
pub enum LoadFault {
    /// The file was not read; the count of its loads rose.
    Failed,
    /// There was no memory for the bytes, or for the entry of a failure.
    NoMemory,
}

/// Why a store or a say did not take all bytes.
#[derive(Clone, Copy, Debug, PartialEq, Eq)]
pub enum StoreFault {
    /// Not all bytes were taken; the count of the file's stores, or of the output, rose.
    Failed,
    /// There was no memory for the bytes, or for the entry of a failure.
    NoMemory,
}

/// Files by name, and an output.
///
/// A desk may tell what its files and its output hold. It counts its faults: for each name those of its loads and those
/// of its stores, and those of its output.
pub trait Desk {
    ghost tells: { Self → Option Contents };

    ghost faults: { Self → Place → ℕ };

    /// The first `most` bytes of a file, or all of it where it is shorter. No file and no output changes.
    fn load(&mut self, alloc: Global, name: &str, most: usize) -> Result<Vec<u8>, LoadFault>
        ensures bytes { IfOk result (λ v. Told (Loads name.now most v.items) (tells self.old) (tells self.new)) }
        ensures short { IfOk result (λ v. vec_len v ≤ most) }
        ensures keeps { Told KeepsAll (tells self.old) (tells self.new) }
        ensures failed { IfErr result (λ e. e ≡ LoadFault.Failed → Rose (faults self.old (loads name.now)) (faults self.new (loads name.now))) }
        ensures none_falls { NoneFalls (faults self.old) (faults self.new) }
        ensures others { IsSome (tells self.old) → OnlyAt (loads name.now) (faults self.old) (faults self.new) };

    /// Makes the file these bytes. After an error it holds a prefix of them. All other files and the output stay.
    fn store(&mut self, name: &str, bytes: &[u8]) -> Result<(), StoreFault>
        ensures stored { OnOk result (Told (Stores name.now bytes.now) (tells self.old) (tells self.new)) }
        ensures cut { OnErr result (Told (StoresPrefix name.now bytes.now) (tells self.old) (tells self.new)) }
        ensures failed { IfErr result (λ e. e ≡ StoreFault.Failed → Rose (faults self.old (stores name.now)) (faults self.new (stores name.now))) }
        ensures none_falls { NoneFalls (faults self.old) (faults self.new) }
        ensures others { IsSome (tells self.old) → OnlyAt (stores name.now) (faults self.old) (faults self.new) };

    /// Appends the bytes to the output. After an error a prefix of them was appended. All files stay.
    fn say(&mut self, bytes: &[u8]) -> Result<(), StoreFault>
        ensures said { OnOk result (Told (Says bytes.now) (tells self.old) (tells self.new)) }
        ensures cut { OnErr result (Told (SaysPrefix bytes.now) (tells self.old) (tells self.new)) }
        ensures failed { IfErr result (λ e. e ≡ StoreFault.Failed → Rose (faults self.old output) (faults self.new output)) }
        ensures none_falls { NoneFalls (faults self.old) (faults self.new) }
        ensures others { IsSome (tells self.old) → OnlyAt output (faults self.old) (faults self.new) };
}
