//! The entries of one row.
ghost use Rattle.std.specs.Prelude.{◌≡◌, ◌+◌, ◌<◌, ◌≤◌, MatchResult, length, pos};
ghost use Rattle.emp_ldl.specs.Form.{IsMatrix, entries};
ghost use Rattle.emp_ldl.specs.Steps.{IsRowOf, ArePivots};
ghost use Rattle.emp_ldl.specs.Curve.{EntryGives, PivotGives, AreResiduals, RowIs, RowEnds};

use crate::fold::folded_cell;
use crate::matrix::Matrix;
use crate::row::RowFault;
use emp_list::seq::Seq;
use emp_num::exact::Wide;
use emp_num::frac::Frac;
use std::alloc::Global;

/// The residual in row `k` and column `j` before `k`.
fn residual(
    matrix: &Matrix,
    k: usize,
    j: usize,
    row: &[Frac],
    lower: &[Frac],
    pivots: &[Frac],
) -> Result<Frac, RowFault>
    requires matrix { IsMatrix matrix.now.side matrix.now.cells }
    requires in_side { k < matrix.now.side }
    requires in_row { j < k }
    requires row_len { j ≤ length row.now }
    requires lower_len { j ≤ length lower.now }
    requires pivots_len { k ≤ length pivots.now }
    requires row { IsRowOf (entries matrix.now.side matrix.now.cells) k j row.now }
    requires lower { IsRowOf (entries matrix.now.side matrix.now.cells) j j lower.now }
    requires pivots { ArePivots (entries matrix.now.side matrix.now.cells) k pivots.now }
    ensures { EntryGives (entries matrix.now.side matrix.now.cells) k j result }
{
    match folded_cell(matrix, k, j, row, lower, pivots) {
        Ok(r) => {
            if pivots[j].num != 0 {
                return Ok(r);
            }
            if r.num != 0 {
                return Err(RowFault::Not);
            }
            Ok(r)
        }
        Err(Wide) => Err(RowFault::Wide),
    }
}

/// The pivot of row `k`.
fn pivot(matrix: &Matrix, k: usize, row: &[Frac], pivots: &[Frac]) -> Result<Frac, RowFault>
    requires matrix { IsMatrix matrix.now.side matrix.now.cells }
    requires in_side { k < matrix.now.side }
    requires row_len { k ≤ length row.now }
    requires pivots_len { k ≤ length pivots.now }
    requires row { IsRowOf (entries matrix.now.side matrix.now.cells) k k row.now }
    requires pivots { ArePivots (entries matrix.now.side matrix.now.cells) k pivots.now }
    ensures { PivotGives (entries matrix.now.side matrix.now.cells) k result }
{
    match folded_cell(matrix, k, k, row, row, pivots) {
        Ok(d) => {
            if d.num < 0 {
                return Err(RowFault::Not);
            }
            Ok(d)
        }
        Err(Wide) => Err(RowFault::Wide),
    }
}

/// The entries of row `k` with its pivot last.
pub fn fold_row(
    alloc: Global,
    matrix: &Matrix,
    k: usize,
    pivots: &[Frac],
    residuals: &[Frac],
) -> Result<Seq<Frac>, RowFault>
    requires matrix { IsMatrix matrix.now.side matrix.now.cells }
    requires in_side { k < matrix.now.side }
    requires pivots_len { length pivots.now ≡ k }
    requires pivots { ArePivots (entries matrix.now.side matrix.now.cells) k pivots.now }
    requires residuals { AreResiduals (entries matrix.now.side matrix.now.cells) k residuals.now }
    ensures { MatchResult result (λ row. RowIs (entries matrix.now.side matrix.now.cells) k row) (λ f. RowEnds (entries matrix.now.side matrix.now.cells) k f) }
{
    let mut row = Seq::new(alloc);
    let mut start: usize = 0;
    for j in 0..k {
        let lower = &residuals[start..start + j];
        match residual(matrix, k, j, row.as_slice(), lower, pivots) {
            Ok(r) => match row.push(r) {
                Ok(()) => start += j,
                Err(_) => return Err(RowFault::NoMemory),
            },
            Err(fault) => return Err(fault),
        }
    }
    match pivot(matrix, k, row.as_slice(), pivots) {
        Ok(d) => match row.push(d) {
            Ok(()) => Ok(row),
            Err(_) => Err(RowFault::NoMemory),
        },
        Err(fault) => Err(fault),
    }
}
