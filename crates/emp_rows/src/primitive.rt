//! Quantities of whole numbers from affine functions with fractions.
ghost use Rattle.std.specs.Prelude.{◌≡◌, ◌<ℤ◌, ◌*ℤ◌, ℤ, pos, int_div, length, IfOk};
ghost use Rattle.std.specs.List.{All};
ghost use Rattle.std.specs.Result.{result_ok};
ghost use Rattle.emp_num.specs.Exact.{IsNarrow};
ghost use Rattle.emp_rows.specs.Affine.{IsRow};
ghost use Rattle.emp_rows.specs.Primitive.{narrowed, joint, joint_from, common_denominator, numerator, numerators, made_over, made, FormedGives, IsMultiple, HasSign};

use crate::affine::Affine;
use crate::reduce::{common_of, quotient};
use emp_list::seq::Seq;
use emp_num::exact::{Wide, product};
use emp_num::frac::Frac;
use std::alloc::{AllocError, Global};

/// Why there is no quantity.
#[derive(Clone, Copy, Debug, PartialEq, Eq)]
pub enum RowFault {
    /// A number that is formed has an absolute value of 2^126 or more.
    Wide,
    /// No memory is left.
    NoMemory,
}

impl From<Wide> for RowFault {
    ghost use Rattle.std.specs.Prelude.{◌≡◌};
    ghost use Rattle.emp_rows.specs.declared.primitive.RowFault.TheVariants.{Wide as too_wide};

    ghost from_gives = { λ _ e. e ≡ too_wide };

    fn from(_wide: Wide) -> RowFault {
        RowFault::Wide
    }
}

impl From<AllocError> for RowFault {
    ghost use Rattle.std.specs.Prelude.{◌≡◌};
    ghost use Rattle.emp_rows.specs.declared.primitive.RowFault.TheVariants.{NoMemory as no_memory};

    ghost from_gives = { λ _ e. e ≡ no_memory };

    fn from(_refused: AllocError) -> RowFault {
        RowFault::NoMemory
    }
}

/// The least common multiple of a number above 0 and a fraction's denominator, as it is formed.
#[tactic(auto, using(crate::proofs::Joint::joining))]
fn joint_formed(total: i128, fraction: Frac) -> Result<i128, Wide>
    requires positive { pos 0 <ℤ total }
    requires narrow { IsNarrow total }
    ensures value { result_ok result ≡ narrowed (joint total fraction.den) }
    ensures narrow { IfOk result IsNarrow }
{
    let common = common_of(total, fraction.den);
    product(quotient(total, common), fraction.den)
}

/// The least common multiple of a number above 0 and a fraction's denominator.
fn joint(total: i128, fraction: Frac) -> Result<i128, Wide>
    requires positive { pos 0 <ℤ total }
    requires narrow { IsNarrow total }
    ensures value { result_ok result ≡ narrowed (joint total fraction.den) }
    ensures positive { IfOk result (λ m. pos 0 <ℤ m) }
    ensures narrow { IfOk result IsNarrow }
{
    joint_formed(total, fraction)
}

/// The least common multiple of all denominators.
#[tactic(auto, using(crate::proofs::Joint::folding))]
fn joint_of(cells: &[Frac]) -> Result<i128, Wide>
    ensures value { result_ok result ≡ joint_from (pos 1) cells.now }
    ensures positive { IfOk result (λ m. pos 0 <ℤ m) }
    ensures narrow { IfOk result IsNarrow }
{
    let mut total = 1;
    for at in 0..cells.len() {
        total = joint(total, cells[at])?;
    }
    Ok(total)
}

/// The least common multiple of the denominators of all coefficients and of the constant.
#[tactic(auto, using(crate::proofs::Joint::forming))]
fn common_denominator(cells: &[Frac], constant: Frac) -> Result<i128, Wide>
    ensures value { result_ok result ≡ common_denominator cells.now constant }
    ensures positive { IfOk result (λ m. pos 0 <ℤ m) }
    ensures narrow { IfOk result IsNarrow }
{
    let total = joint_of(cells)?;
    joint(total, constant)
}

/// The fraction's numerator over a common denominator.
#[tactic(auto, using(crate::proofs::Joint::joining))]
fn numerator(common: i128, fraction: Frac) -> Result<i128, Wide>
    ensures value { result_ok result ≡ numerator common fraction }
    ensures narrow { IfOk result IsNarrow }
{
    let times = quotient(common, fraction.den.unsigned_abs());
    product(fraction.num, times)
}

/// All numerators over a common denominator.
#[tactic(auto, using(crate::proofs::Joint::collecting))]
fn numerators(alloc: Global, common: i128, cells: &[Frac]) -> Result<Seq<i128>, RowFault>
    ensures value { FormedGives (numerators common cells.now) result }
    ensures narrow { IfOk result (All IsNarrow) }
    ensures count { IfOk result (λ ns. length ns ≡ length cells.now) }
{
    let mut out = Seq::new(alloc);
    for at in 0..cells.len() {
        let next = numerator(common, cells[at])?;
        out.push(next)?;
    }
    Ok(out)
}

/// The quantity over a common denominator, divided by what all numbers have in common.
#[tactic(auto, using(crate::proofs::Joint::forming))]
fn made_over(
    alloc: Global,
    cells: &[Frac],
    constant: Frac,
    common: i128,
) -> Result<Affine, RowFault>
    ensures value { FormedGives (made_over cells.now constant common) result }
    ensures row { IfOk result (IsRow (length cells.now)) }
{
    let numerators = numerators(alloc, common, cells)?;
    let last = numerator(common, constant)?;
    let row = Affine::primitive(alloc, numerators.as_slice(), last)?;
    Ok(row)
}

/// The quantity over the common denominator of all coefficients and the constant.
fn primitive_formed(alloc: Global, cells: &[Frac], constant: Frac) -> Result<Affine, RowFault>
    ensures made { FormedGives (made cells.now constant) result }
    ensures row { IfOk result (IsRow (length cells.now)) }
{
    let common = common_denominator(cells, constant)?;
    made_over(alloc, cells, constant, common)
}

/// The quantity of whole numbers that is a positive multiple of the affine function with these coefficients and this
/// constant. It has the function's sign at every point, and what its numbers have in common is 1, or all of them are 0.
///
/// The least common multiple of the denominators is formed over the coefficients in their order and then the constant; each
/// numerator is multiplied by it over its denominator; all are divided by their greatest common divisor.
/// `RowFault::Wide` exactly where a number formed so has an absolute value of 2^126 or more, as `made` of
/// `specs/Primitive.antt` says it.
pub fn primitive(alloc: Global, cells: &[Frac], constant: Frac) -> Result<Affine, RowFault>
    ensures made { FormedGives (made cells.now constant) result }
    ensures row { IfOk result (IsRow (length cells.now)) }
    ensures multiple { IfOk result (λ r. IsMultiple r cells.now constant) }
    ensures sign { IfOk result (λ r. HasSign r cells.now constant) }
{
    primitive_formed(alloc, cells, constant)
}
