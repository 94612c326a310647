//! Fault lines, formed without memory.
ghost use Rattle.std.specs.Prelude.{◌≡◌, ◌≤◌, ◌+◌, ◌++◌, decimal, length};

use arrayvec::ArrayVec;
use itoa::Buffer;

/// A fault line, in the bytes that the longest has room in.
pub type Line = ArrayVec<u8, 256>;

/// Adds bytes for which there is room.
pub fn add(line: &mut Line, bytes: &[u8])
    requires { length line.old.items + length bytes.now ≤ 256 }
    ensures bytes { line.new.items ≡ line.old.items ++ bytes.now }
    ensures size { length line.new.items ≡ length line.old.items + length bytes.now }
{
    match line.try_extend_from_slice(bytes) {
        Ok(()) => {}
        Err(_) => {}
    }
}

/// A line of these bytes.
pub fn plain(text: &[u8]) -> Line
    requires { length text.now ≤ 256 }
    ensures { result.items ≡ text.now }
{
    let mut line = ArrayVec::new();
    add(&mut line, text);
    line
}

/// A line with a number between two texts.
pub fn numbered(text: &[u8], number: u64, end: &[u8]) -> Line
    requires { length text.now + length end.now ≤ 200 }
    ensures bytes { result.items ≡ text.now ++ decimal number ++ end.now }
    ensures short { length result.items ≤ length text.now + 40 + length end.now }
{
    let mut line = ArrayVec::new();
    let mut buffer = Buffer::new();
    add(&mut line, text);
    add(&mut line, buffer.format(number).as_bytes());
    add(&mut line, end);
    line
}
