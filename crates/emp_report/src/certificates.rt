//! The lines of certificates: texts that are refused, certificates that are, and those that are accepted.
ghost use Rattle.std.specs.Prelude.{◌≡◌, ◌≢◌, ◌≤◌, ◌++◌, codes, decimal, length, MatchOption};
ghost use Rattle.emp_cert_text.specs.declared.read.CertFault.TheVariants as cert_words;
ghost use Rattle.emp_report.specs.CertLines.{cert_line, long_line, why_word, rejected_line, sum_line, verdict_word, accepted_line, migrated_line};

use emp_cert::cert::Verdict;
use emp_cert_text::read::CertFault;
use emp_check::outcome::Why;
use emp_command::line::{Line, add, numbered, plain};
use emp_command::refusal::Refusal;

/// The line of a certificate's text at one of its lines, which counts from 1, with a word behind it.
fn at_line(line: u64, word: &[u8]) -> Line
    requires { length word.now ≤ 30 }
    ensures { result.items ≡ codes "error 22: certificate line " ++ decimal line ++ word.now }
{
    numbered(b"error 22: certificate line ", line, word)
}

/// The line of a text that is no certificate's; none for a want of memory.
pub fn cert_line(fault: CertFault) -> Option<Line>
    ensures { MatchOption result (fault ≡ cert_words.NoMemory) (λ l. (fault ≢ cert_words.NoMemory) × (l.items ≡ cert_line fault)) }
{
    match fault {
        CertFault::Version => Some(plain(b"error 22: certificate version\n")),
        CertFault::Syntax(line) => Some(at_line(line, b" syntax\n")),
        CertFault::Range(line) => Some(at_line(line, b" range\n")),
        CertFault::TooLong => Some(Refusal::TooLong(3, 16_777_216).line()),
        CertFault::NoMemory => None,
    }
}

/// The line of a certificate to be written that is too long.
pub fn long_line() -> Line
    ensures { result.items ≡ long_line }
{
    plain(b"error 24: certificate too long\n")
}

/// The word of a test that failed.
fn why_word(why: Why) -> &'static [u8]
    ensures word { result.now ≡ why_word why }
    ensures short { length result.now ≤ 30 }
{
    match why {
        Why::Sizes => b"sizes",
        Why::Pairs => b"pairs",
        Why::Kind => b"kind",
        Why::Quantity => b"quantity",
        Why::Pair => b"pair",
        Why::Ray => b"ray",
        Why::Split => b"split",
        Why::Factor => b"factor",
        Why::NotConstant => b"not constant",
        Why::Constant => b"constant",
    }
}

/// The line of a certificate that is rejected at a node; node 0 stands for its head.
pub fn rejected_line(node: u64, why: Why) -> Line
    ensures { result.items ≡ rejected_line node why }
{
    let mut line = numbered(b"error 23: certificate node ", node, b" ");
    add(&mut line, why_word(why));
    add(&mut line, b"\n");
    line
}

/// The line of a node whose sum is wide.
pub fn sum_line(node: u64) -> Line
    ensures { result.items ≡ sum_line node }
{
    numbered(b"error 19: wide sum node ", node, b"\n")
}

/// The word of a verdict.
fn verdict_word(verdict: &Verdict) -> &'static [u8]
    ensures word { result.now ≡ verdict_word verdict.now }
    ensures short { length result.now ≤ 30 }
{
    match verdict {
        Verdict::Point(_) => b"point",
        Verdict::Missing(_) => b"none",
        Verdict::Best(_, _) => b"best",
        Verdict::Unbounded(_, _) => b"unbounded",
    }
}

/// A word and the verdict's.
fn with_verdict(start: &[u8], verdict: &Verdict) -> Line
    requires { length start.now ≤ 30 }
    ensures { result.items ≡ start.now ++ verdict_word verdict.now ++ codes "\n" }
{
    let mut line = plain(start);
    add(&mut line, verdict_word(verdict));
    add(&mut line, b"\n");
    line
}

/// The line of a certificate that is accepted.
pub fn accepted_line(verdict: &Verdict) -> Line
    ensures { result.items ≡ accepted_line verdict.now }
{
    with_verdict(b"accepted ", verdict)
}

/// The line of a certificate that is accepted and stored anew.
pub fn migrated_line(verdict: &Verdict) -> Line
    ensures { result.items ≡ migrated_line verdict.now }
{
    with_verdict(b"migrated ", verdict)
}
