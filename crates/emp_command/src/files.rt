//! The files that a request reads.
ghost use Rattle.std.specs.Prelude.{◌≡◌, ◌≤◌, ◌<◌, ◌+◌, length, map, string_bytes, IfOk, IfErr};
ghost use Rattle.emp_desk.specs.Desk.{Told, KeepsAll, NoneFalls};
ghost use Rattle.emp_command.specs.Course.{limit_of};
ghost use Rattle.emp_command.specs.Refusals.{IsFile, IsUnloaded, HoldTexts, SomeUnloaded, TextsFit};

use crate::refusal::Refusal;
use emp_desk::desk::{Desk, LoadFault};
use emp_list::seq::Seq;
use std::alloc::Global;

/// The most bytes that a model text and an annotation text may have.
pub const LONGEST_TEXT: usize = 1_048_576;

/// The most bytes that a certificate may have.
pub const LONGEST_CERTIFICATE: usize = 16_777_216;

/// How many bytes the file of this number, counted from 1, may have.
fn limit_of(file: u64) -> usize
    ensures value { result ≡ limit_of file }
    ensures small { result ≤ 16777216 }
{
    if file == 3 {
        LONGEST_CERTIFICATE
    } else {
        LONGEST_TEXT
    }
}

/// The bytes of the file of a number, unless it is too long.
fn load<D: Desk>(alloc: Global, name: &str, file: u64, desk: &mut D) -> Result<Vec<u8>, Refusal>
    ensures bytes { IfOk result (λ v. Told (IsFile name.now file v.items) (D.tells desk.old) (D.tells desk.new)) }
    ensures short { IfOk result (λ v. length v.items ≤ limit_of file) }
    ensures refused { IfErr result (IsUnloaded name.now file (D.faults desk.old) (D.faults desk.new) (D.tells desk.old) (D.tells desk.new)) }
    ensures keeps { Told KeepsAll (D.tells desk.old) (D.tells desk.new) }
    ensures none_falls { NoneFalls (D.faults desk.old) (D.faults desk.new) }
{
    let most = limit_of(file);
    match desk.load(alloc, name, most + 1) {
        Ok(bytes) if bytes.len() > most => Err(Refusal::TooLong(file, most as u64)),
        Ok(bytes) => Ok(bytes),
        Err(LoadFault::Failed) => Err(Refusal::Unread(file)),
        Err(LoadFault::NoMemory) => Err(Refusal::NoMemory),
    }
}

/// The bytes of all files in order, unless one is not read or is too long.
#[tactic(auto, using(crate::proofs::Texts::loading))]
pub fn load_all<D: Desk>(
    alloc: Global,
    names: &[String],
    desk: &mut D,
) -> Result<Seq<Seq<u8>>, Refusal>
    ensures texts { IfOk result (λ v. Told (HoldTexts 1 (map string_bytes names.now) v) (D.tells desk.old) (D.tells desk.new)) }
    ensures count { IfOk result (λ v. length v ≡ length names.now) }
    ensures short { IfOk result (TextsFit 1) }
    ensures refused { IfErr result (SomeUnloaded (map string_bytes names.now) (D.faults desk.old) (D.faults desk.new) (D.tells desk.old) (D.tells desk.new)) }
    ensures keeps { Told KeepsAll (D.tells desk.old) (D.tells desk.new) }
    ensures none_falls { NoneFalls (D.faults desk.old) (D.faults desk.new) }
{
    let mut texts = Seq::new(alloc);
    for at in 0..names.len() {
        match load(alloc, names[at].as_str(), at as u64 + 1, desk) {
            Ok(bytes) => match texts.push(Seq::of(bytes)) {
                Ok(()) => {}
                Err(_) => return Err(Refusal::NoMemory),
            },
            Err(refusal) => return Err(refusal),
        }
    }
    Ok(texts)
}
