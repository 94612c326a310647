//! The fold of one row.
ghost use Rattle.std.specs.Prelude.{◌≡◌, ◌<◌, ◌≤◌, MatchResult, length, pos};
ghost use Rattle.emp_ldl.specs.Form.{IsMatrix, entries};
ghost use Rattle.emp_ldl.specs.Fold.{result_at};
ghost use Rattle.emp_ldl.specs.Steps.{Is, StepGives, StepWide, CellPasses, CellIsWide, IsRowOf, ArePivots};

use crate::matrix::Matrix;
use emp_num::exact::Wide;
use emp_num::frac::Frac;

/// `r - (x * y) / d`, and `r` where `d` is 0.
#[tactic(auto, using(crate::proofs::Steps::stepping))]
fn lowered(r: Frac, x: Frac, y: Frac, d: Frac) -> Result<Frac, Wide>
    ensures { MatchResult result (λ s. StepGives r x y d s) (λ _. StepWide r x y d) }
{
    if d.num == 0 {
        return Ok(r);
    }
    let product = Frac::mul(x, y)?;
    match Frac::div(product, d) {
        Ok(quotient) => match Frac::sub(r, quotient) {
            Ok(difference) => Ok(difference),
            Err(Wide) => Err(Wide),
        },
        Err(_) => Err(Wide),
    }
}

/// The cell in row `k` and column `j` after the terms of the columns before `j`.
pub fn folded_cell(
    matrix: &Matrix,
    k: usize,
    j: usize,
    row: &[Frac],
    lower: &[Frac],
    pivots: &[Frac],
) -> Result<Frac, Wide>
    requires matrix { IsMatrix matrix.now.side matrix.now.cells }
    requires in_side { k < matrix.now.side }
    requires in_row { j ≤ k }
    requires row_len { j ≤ length row.now }
    requires lower_len { j ≤ length lower.now }
    requires pivots_len { j ≤ length pivots.now }
    requires row { IsRowOf (entries matrix.now.side matrix.now.cells) k j row.now }
    requires lower { IsRowOf (entries matrix.now.side matrix.now.cells) j j lower.now }
    requires pivots { ArePivots (entries matrix.now.side matrix.now.cells) j pivots.now }
    ensures { MatchResult result (λ r. Is r (result_at (entries matrix.now.side matrix.now.cells) k j) × CellPasses (entries matrix.now.side matrix.now.cells) k j) (λ _. CellIsWide (entries matrix.now.side matrix.now.cells) k j) }
{
    let mut r = matrix.cell(k, j);
    for i in 0..j {
        match lowered(r, row[i], lower[i], pivots[i]) {
            Ok(next) => r = next,
            Err(Wide) => return Err(Wide),
        }
    }
    Ok(r)
}
