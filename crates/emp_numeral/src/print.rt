//! Fractions as text.
ghost use Rattle.std.specs.Prelude.{◌≡◌, ◌+◌, ◌≤◌, ◌++◌, length, take};
ghost use Rattle.emp_numeral.specs.FracText.{fraction_text};

use emp_num::frac::Frac;
use itoa::Buffer;

/// Writes a text at a place, and answers where it ends.
#[tactic(auto, using(crate::proofs::Printing::putting))]
fn put(out: &mut [u8], at: usize, text: &[u8]) -> usize
    requires { at + length text.now ≤ length out.old }
    ensures end { result ≡ at + length text.now }
    ensures bytes { take result out.new ≡ take at out.old ++ text.now }
{
    for i in 0..text.len() {
        out[at + i] = text[i];
    }
    at + text.len()
}

/// Writes `n` or `n/d` at the start of the buffer, and answers where it ends. Every fraction has room in 96 bytes.
#[tactic(auto, using(crate::proofs::Printing::printing))]
pub fn print_frac(value: Frac, out: &mut [u8; 96]) -> usize
    ensures within { result ≤ 96 }
    ensures bytes { take result out.new ≡ fraction_text value }
{
    let mut buffer = Buffer::new();
    let end = put(out, 0, buffer.format(value.num).as_bytes());
    if value.den == 1 {
        return end;
    }
    let end = put(out, end, b"/");
    put(out, end, buffer.format(value.den).as_bytes())
}
