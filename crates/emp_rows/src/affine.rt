//! Affine quantities with whole numbers.
ghost use Rattle.std.specs.Prelude.{◌≡◌, ◌↔◌, ◌<◌, ◌^◌, ◌∷◌, ℤ, pos, ◌+ℤ◌, ◌*ℤ◌, List, length, IfOk};
ghost use Rattle.std.specs.List.{All};
ghost use Rattle.emp_num.specs.Exact.{IsNarrow};
ghost use Rattle.emp_num.specs.Gcd.{content_of};
ghost use Rattle.emp_rows.specs.Affine.{divisor_of, primitive_of};

use crate::reduce::{quotient, quotients};
use emp_list::memory::NoMemory;
use emp_list::seq::Seq;
use emp_num::content::content_with;
use std::alloc::{AllocError, Global};

/// A whole-number affine function of the base variables: one cell per variable, and a constant.
#[derive(Drop)]
pub struct Affine {
    pub cells: Seq<i128>,
    pub constant: i128,
}

/// What the numbers of a row are divided by: their greatest common divisor, and 1 where all are 0.
fn divisor_for(cells: &[i128], constant: i128) -> u128
    requires cells { All IsNarrow cells.now }
    requires constant { IsNarrow constant }
    ensures value { pos result ≡ divisor_of (content_of (constant ∷ cells.now)) }
    ensures positive { 0 < result }
    ensures narrow { result < 2 ^ 126 }
{
    let common = content_with(constant.unsigned_abs(), cells);
    if common == 0 { 1 } else { common }
}

/// The row divided by what its numbers have in common.
fn divided(alloc: Global, cells: &[i128], constant: i128) -> Result<Affine, AllocError>
    requires cells { All IsNarrow cells.now }
    requires constant { IsNarrow constant }
    ensures { IfOk result (λ r. r ≡ primitive_of cells.now constant) }
{
    let divisor = divisor_for(cells, constant);
    Ok(Affine {
        cells: quotients(alloc, cells, divisor)?,
        constant: quotient(constant, divisor),
    })
}

impl Affine {
    /// The same quantity once more.
    pub fn copy(&self, alloc: Global) -> Result<Affine, NoMemory>
        ensures { IfOk result (λ r. r ≡ self.now) }
    {
        let cells = self.cells.copy(alloc)?;
        Ok(Affine {
            cells,
            constant: self.constant,
        })
    }

    ghost use Rattle.emp_algebra.specs.Vector.{dot};
    ghost use Rattle.emp_rows.specs.Affine.{IsRow, value_times};

    /// The row with these numbers divided by their greatest common divisor.
    ///
    /// It is 0 at the same points. A row of zeros stays. The only error is that no memory is left.
    pub fn primitive(alloc: Global, cells: &[i128], constant: i128) -> Result<Affine, AllocError>
        requires cells { All IsNarrow cells.now }
        requires constant { IsNarrow constant }
        ensures value { IfOk result (λ r. r ≡ primitive_of cells.now constant) }
        ensures row { IfOk result (IsRow (length cells.now)) }
        ensures zeros { IfOk result (λ r. (d : ℤ) (xs : List ℤ) → (value_times r d xs ≡ pos 0) ↔ (constant *ℤ d +ℤ dot cells.now xs ≡ pos 0)) }
    {
        divided(alloc, cells, constant)
    }
}
