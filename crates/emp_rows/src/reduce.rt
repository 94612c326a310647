//! Division of rows of whole numbers by what they have in common.
ghost use Rattle.std.specs.Prelude.{◌≡◌, ◌<◌, ◌^◌, ◌<ℤ◌, ℤ, pos, int_div, unsigned_abs, IfOk};
ghost use Rattle.emp_num.specs.Exact.{IsNarrow};
ghost use Rattle.emp_num.specs.Gcd.{gcd_of};
ghost use Rattle.emp_algebra.specs.Vector.{quotients};

use emp_list::seq::Seq;
use emp_num::exact::common_divisor;
use std::alloc::{AllocError, Global};

/// The quotient of a number by a count, rounded towards 0.
pub fn quotient(number: i128, divisor: u128) -> i128
    requires positive { 0 < divisor }
    requires narrow { divisor < 2 ^ 126 }
    ensures { result ≡ int_div number (pos divisor) }
{
    number / (divisor as i128)
}

/// The quotients of the numbers of a row by a count.
#[tactic(auto, using(crate::proofs::Reduced::dividing))]
pub fn quotients(alloc: Global, row: &[i128], divisor: u128) -> Result<Seq<i128>, AllocError>
    requires positive { 0 < divisor }
    requires narrow { divisor < 2 ^ 126 }
    ensures { IfOk result (λ r. r ≡ quotients row.now (pos divisor)) }
{
    let mut out = Seq::new(alloc);
    for k in 0..row.len() {
        out.push(quotient(row[k], divisor))?;
    }
    Ok(out)
}

/// The greatest common divisor of two numbers' absolute values.
pub fn common_of(a: i128, b: i128) -> u128
    ensures value { result ≡ gcd_of (unsigned_abs a) (unsigned_abs b) }
    ensures positive { pos 0 <ℤ a → 0 < result }
    ensures narrow { pos 0 <ℤ a → IsNarrow a → result < 2 ^ 126 }
{
    common_divisor(a.unsigned_abs(), b.unsigned_abs())
}
