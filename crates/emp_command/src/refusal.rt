//! Why a call ends before or after its texts are answered, with the line that says so.
ghost use Rattle.std.specs.Prelude.{◌≡◌};
ghost use Rattle.emp_command.specs.Refusals.{line_of, status_of};

use crate::line::{Line, add, numbered, plain};
use itoa::Buffer;
use std::alloc::AllocError;

/// Why a call ends without an answer over its texts.
#[derive(Clone, Copy, Debug, PartialEq, Eq)]
pub enum Refusal {
    /// The words are not plain.
    BadWords,
    /// `--work` is outside 1 to 1,000,000,000.
    BadWork,
    /// FIRMS of `make` is outside 2 to 40.
    BadFirms,
    /// The load of the file of this number failed.
    Unread(u64),
    /// The file of this number has more bytes than the second number.
    TooLong(u64, u64),
    /// A file could not be stored.
    Unwritten,
    /// There was no memory.
    NoMemory,
}

fn too_long_line(file: u64, most: u64) -> Line
    ensures { result.items ≡ line_of (Refusal.TooLong file most) }
{
    let mut buffer = Buffer::new();
    let mut line = numbered(b"error 13: file ", file, b" is longer than ");
    add(&mut line, buffer.format(most).as_bytes());
    add(&mut line, b" bytes\n");
    line
}

impl From<AllocError> for Refusal {
    ghost use Rattle.emp_command.specs.declared.refusal.Refusal.TheVariants.{NoMemory as WantOfMemory};

    ghost from_gives = { λ _ f. f ≡ WantOfMemory };

    fn from(_error: AllocError) -> Self {
        Refusal::NoMemory
    }
}

impl Refusal {
    /// The line that says so, with its LF.
    pub fn line(self) -> Line
        ensures { result.items ≡ line_of self }
    {
        match self {
            Refusal::BadWords => plain(b"error 10: bad words\n"),
            Refusal::BadWork => plain(b"error 24: work out of range\n"),
            Refusal::BadFirms => plain(b"error 24: firms out of range\n"),
            Refusal::Unread(file) => numbered(b"error 11: cannot read file ", file, b"\n"),
            Refusal::TooLong(file, most) => too_long_line(file, most),
            Refusal::Unwritten => plain(b"error 12: cannot write\n"),
            Refusal::NoMemory => plain(b"error 21: no memory\n"),
        }
    }

    /// The exit status.
    pub fn status(self) -> u8
        ensures { result ≡ status_of self }
    {
        match self {
            Refusal::BadWords => 10,
            Refusal::BadWork => 24,
            Refusal::BadFirms => 24,
            Refusal::Unread(_) => 11,
            Refusal::TooLong(_, _) => 13,
            Refusal::Unwritten => 12,
            Refusal::NoMemory => 21,
        }
    }
}
