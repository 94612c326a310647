//! All bytes of a reader up to a limit, and all bytes to a writer.
ghost use Rattle.std.specs.Prelude.{◌≤◌, IfOk, OnOk, OnErr, vec_len};
ghost use Rattle.emp_file_desk.specs.Streams.{IsFirst, TakesAll, TakesPrefix};

use emp_desk::desk::LoadFault;
use std::alloc::Global;
use std::io::{Read, Write};

/// The bytes that one read asks for at most.
const CHUNK: usize = 4096;

/// The system did not take all bytes.
pub struct NotTaken;

/// Reads until the end, or until there are `most` bytes. Each turn takes at least one byte or is the last.
pub fn read_first<F: Read>(alloc: Global, file: &mut F, most: usize) -> Result<Vec<u8>, LoadFault>
    ensures short { IfOk result (λ bytes. vec_len bytes ≤ most) }
    ensures first { IfOk result (λ bytes. IsFirst most (F.remaining file.old) bytes.items) }
{
    let mut bytes = Vec::new(alloc);
    let mut chunk = [0u8; CHUNK];
    for _ in 0..most {
        let wanted = (most - bytes.len()).min(CHUNK);
        let Ok(taken) = file.read(&mut chunk[..wanted]) else {
            return Err(LoadFault::Failed);
        };
        if taken == 0 {
            return Ok(bytes);
        }
        if bytes.extend_from_slice(&chunk[..taken]).is_err() {
            return Err(LoadFault::NoMemory);
        }
    }
    Ok(bytes)
}

/// Writes all the bytes, and flushes them. A write that takes nothing is a failure; then a prefix of them was written.
pub fn write_whole<W: Write>(to: &mut W, bytes: &[u8]) -> Result<(), NotTaken>
    ensures whole { OnOk result (TakesAll (W.contents to.old) (W.contents to.new) bytes.now) }
    ensures cut { OnErr result (TakesPrefix (W.contents to.old) (W.contents to.new) bytes.now) }
{
    let mut at = 0;
    while at < bytes.len() {
        match to.write(&bytes[at..]) {
            Ok(taken) if taken > 0 => at += taken,
            _ => return Err(NotTaken),
        }
    }
    match to.flush() {
        Ok(()) => Ok(()),
        Err(_) => Err(NotTaken),
    }
}
