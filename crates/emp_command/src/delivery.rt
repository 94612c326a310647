//! What a call stores and says.
ghost use Rattle.std.specs.Prelude.{◌≡◌, ◌≢◌, ◌⊎◌, map, IfErr, OnOk, OnErr};
ghost use Rattle.emp_desk.specs.Desk.{Told, NoneFalls, Rose, output, SaysPrefix};
ghost use Rattle.emp_desk.specs.declared.desk.StoreFault.TheVariants.{Failed};
ghost use Rattle.emp_command.specs.Course.{StoresAll, StoresPart, SomeStoreRose, Delivers};
ghost use Rattle.emp_command.specs.Refusals.{line_of, status_of};
ghost use Rattle.emp_command.specs.Deliveries.{stored_of, outcome_of, SayEnds};

use crate::refusal::Refusal;
use emp_desk::desk::{Desk, StoreFault};

/// A file that is to be stored, by its name.
#[derive(Drop)]
pub struct Stored {
    pub name: String,
    pub bytes: Vec<u8>,
}

/// Stores the files in order, until one is not stored whole.
#[tactic(auto, using(crate::proofs::Storing::storing))]
fn store_all<D: Desk>(files: &[Stored], desk: &mut D) -> Result<(), StoreFault>
    ensures stored { OnOk result (Told (StoresAll (map stored_of files.now)) (D.tells desk.old) (D.tells desk.new)) }
    ensures cut { OnErr result (Told (StoresPart (map stored_of files.now)) (D.tells desk.old) (D.tells desk.new)) }
    ensures failed { IfErr result (λ e. e ≡ Failed → SomeStoreRose (map stored_of files.now) (D.faults desk.old) (D.faults desk.new)) }
    ensures none_falls { NoneFalls (D.faults desk.old) (D.faults desk.new) }
{
    for at in 0..files.len() {
        let file = &files[at];
        match desk.store(file.name.as_str(), file.bytes.as_slice()) {
            Ok(()) => {}
            Err(fault) => return Err(fault),
        }
    }
    Ok(())
}

/// Says the text, and gives the status unless the say fails: then 12, or 21 for want of memory.
fn say<D: Desk>(desk: &mut D, text: &[u8], status: u8) -> u8
    ensures ends { SayEnds status text.now (D.faults desk.old) (D.faults desk.new) (D.tells desk.old) (D.tells desk.new) result }
    ensures none_falls { NoneFalls (D.faults desk.old) (D.faults desk.new) }
{
    match desk.say(text) {
        Ok(()) => status,
        Err(StoreFault::Failed) => 12,
        Err(StoreFault::NoMemory) => 21,
    }
}

/// Stores the files in order, says the text and gives the status.
///
/// Where a store or the say fails the answer is 12, or 21 for want of memory. A file that failed holds a prefix of its bytes, and the
/// line that says so, or a prefix of it, was said in place of the text.
pub fn deliver<D: Desk>(files: &[Stored], text: &[u8], status: u8, desk: &mut D) -> u8
    ensures told { Told (λ before after. Delivers (outcome_of status (map stored_of files.now) text.now) (D.faults desk.old) (D.faults desk.new) before after result) (D.tells desk.old) (D.tells desk.new) }
    ensures cause { (result ≡ status) ⊎ ((result ≡ 21) ⊎ ((result ≡ 12) × (SomeStoreRose (map stored_of files.now) (D.faults desk.old) (D.faults desk.new) ⊎ Rose (D.faults desk.old output) (D.faults desk.new output)))) }
    ensures none_falls { NoneFalls (D.faults desk.old) (D.faults desk.new) }
{
    match store_all(files, desk) {
        Ok(()) => say(desk, text, status),
        Err(StoreFault::Failed) => say(
            desk,
            Refusal::Unwritten.line().as_slice(),
            Refusal::Unwritten.status(),
        ),
        Err(StoreFault::NoMemory) => say(
            desk,
            Refusal::NoMemory.line().as_slice(),
            Refusal::NoMemory.status(),
        ),
    }
}

/// Says the line of a refusal that needs no memory, and gives its status; 12 where the say fails.
pub fn refuse<D: Desk>(refusal: Refusal, desk: &mut D) -> u8
    requires { status_of refusal ≢ 21 }
    ensures told { Told (SaysPrefix (line_of refusal)) (D.tells desk.old) (D.tells desk.new) }
    ensures ends { ((result ≡ 12) × Rose (D.faults desk.old output) (D.faults desk.new output)) ⊎ (result ≡ status_of refusal) }
    ensures none_falls { NoneFalls (D.faults desk.old) (D.faults desk.new) }
{
    let status = refusal.status();
    match desk.say(refusal.line().as_slice()) {
        Ok(()) => status,
        Err(StoreFault::Failed) => 12,
        Err(StoreFault::NoMemory) => status,
    }
}
