//! What all numbers of a row have in common.
ghost use Rattle.std.specs.Prelude.{◌≡◌};
ghost use Rattle.emp_num.specs.Gcd.{content_from};

use crate::exact::common_divisor;

/// The greatest common divisor of a start and of the numbers of a row, signs aside: 0 where all of them are 0. `content_from` of
/// `specs/Gcd.antt` says it.
#[tactic(auto, using(crate::proofs::Divisors::folding))]
pub fn content_with(start: u128, row: &[i128]) -> u128
    ensures { result ≡ content_from start row.now }
{
    let mut total = start;
    for i in 0..row.len() {
        total = common_divisor(total, row[i].unsigned_abs());
    }
    total
}
