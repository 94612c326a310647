//! The test of squares.
ghost use Rattle.std.specs.Prelude.{◌≡◌, ◌<◌, ◌≤◌, ◌+◌, ◌↔◌, MatchResult, IsTrue, length};
ghost use Rattle.emp_ldl.specs.Form.{IsMatrix, IsSymmetric, entries};
ghost use Rattle.emp_ldl.specs.Curve.{offset};
ghost use Rattle.emp_ldl.specs.Steps.{Is};
ghost use Rattle.emp_ldl.specs.Shown.{part, sum_to, HasShape};
ghost use Rattle.emp_ldl.specs.Check.{AddGives, AddWide, values, SumPasses, SumIsWide, RowSumsGive, IsWeighed, RowIsWeighed, CheckGives};

use crate::matrix::{Matrix, is_same};
use crate::squares::Squares;
use emp_num::exact::Wide;
use emp_num::frac::Frac;

/// `t + (x * y) / d`, and `t` where `d` is 0.
#[tactic(auto, using(crate::proofs::Checks::adding))]
fn raised(t: Frac, x: Frac, y: Frac, d: Frac) -> Result<Frac, Wide>
    ensures { MatchResult result (λ s. AddGives t x y d s) (λ _. AddWide t x y d) }
{
    if d.num == 0 {
        return Ok(t);
    }
    let product = Frac::mul(x, y)?;
    match Frac::div(product, d) {
        Ok(quotient) => match Frac::add(t, quotient) {
            Ok(sum) => Ok(sum),
            Err(Wide) => Err(Wide),
        },
        Err(_) => Err(Wide),
    }
}

/// The pivot of row `i`.
#[tactic(auto, using(crate::proofs::Says::part_pivot))]
fn pivot(pivots: &[Frac], residuals: &[Frac], i: usize) -> Frac
    requires shape { HasShape pivots.now residuals.now }
    requires in_side { i < (length pivots.now) }
    ensures { result ≡ part pivots.now residuals.now i i }
{
    pivots[i]
}

/// The residual in row `k` and column `i`, where the row's first one is at `start`.
fn residual(pivots: &[Frac], residuals: &[Frac], k: usize, start: usize, i: usize) -> Frac
    requires shape { HasShape pivots.now residuals.now }
    requires in_side { k < (length pivots.now) }
    requires in_row { i < k }
    requires start { start ≡ offset k }
    ensures { result ≡ part pivots.now residuals.now k i }
{
    residuals[start + i]
}

/// The pivot or a residual.
fn part_at(pivots: &[Frac], residuals: &[Frac], k: usize, start: usize, i: usize) -> Frac
    requires shape { HasShape pivots.now residuals.now }
    requires in_side { k < (length pivots.now) }
    requires in_row { i ≤ k }
    requires start { start ≡ offset k }
    ensures { result ≡ part pivots.now residuals.now k i }
{
    if i == k {
        pivot(pivots, residuals, k)
    } else {
        residual(pivots, residuals, k, start, i)
    }
}

/// The sum of the squares' cells in row `k` and column `j`.
fn summed(
    pivots: &[Frac],
    residuals: &[Frac],
    k: usize,
    k_start: usize,
    j: usize,
    j_start: usize,
) -> Result<Frac, Wide>
    requires shape { HasShape pivots.now residuals.now }
    requires in_side { k < (length pivots.now) }
    requires in_row { j ≤ k }
    requires k_start { k_start ≡ offset k }
    requires j_start { j_start ≡ offset j }
    ensures { MatchResult result (λ t. Is t (sum_to (values (part pivots.now residuals.now)) k j (j + 1)) × SumPasses (part pivots.now residuals.now) k j (j + 1)) (λ _. SumIsWide (part pivots.now residuals.now) k j (j + 1)) }
{
    let mut total = Frac::reduced(0, 1);
    for i in 0..j + 1 {
        let x = part_at(pivots, residuals, k, k_start, i);
        let y = part_at(pivots, residuals, j, j_start, i);
        match raised(total, x, y, pivot(pivots, residuals, i)) {
            Ok(next) => total = next,
            Err(Wide) => return Err(Wide),
        }
    }
    Ok(total)
}

/// Whether each residual of row `k` in a column with pivot 0 is 0.
fn row_is_weighed(pivots: &[Frac], residuals: &[Frac], k: usize, start: usize) -> bool
    requires shape { HasShape pivots.now residuals.now }
    requires in_side { k < (length pivots.now) }
    requires start { start ≡ offset k }
    ensures { IsTrue result ↔ RowIsWeighed (part pivots.now residuals.now) k k }
{
    for j in 0..k {
        if pivot(pivots, residuals, j).num == 0
            && residual(pivots, residuals, k, start, j).num != 0
        {
            return false;
        }
    }
    true
}

/// Whether no pivot is negative, and each residual in a column with pivot 0 is 0.
fn is_weighed(pivots: &[Frac], residuals: &[Frac]) -> bool
    requires { HasShape pivots.now residuals.now }
    ensures { IsTrue result ↔ IsWeighed (values (part pivots.now residuals.now)) (length pivots.now) }
{
    let mut start: usize = 0;
    for k in 0..pivots.len() {
        if pivot(pivots, residuals, k).num < 0 {
            return false;
        }
        if !row_is_weighed(pivots, residuals, k, start) {
            return false;
        }
        start += k;
    }
    true
}

/// Whether the squares' cells in row `k` sum to the matrix's.
fn row_agrees(
    matrix: &Matrix,
    pivots: &[Frac],
    residuals: &[Frac],
    k: usize,
    start: usize,
) -> Result<bool, Wide>
    requires matrix { IsMatrix matrix.now.side matrix.now.cells }
    requires shape { HasShape pivots.now residuals.now }
    requires side { length pivots.now ≡ matrix.now.side }
    requires in_side { k < (length pivots.now) }
    requires start { start ≡ offset k }
    ensures { RowSumsGive (entries matrix.now.side matrix.now.cells) (part pivots.now residuals.now) k result }
{
    let mut column: usize = 0;
    for j in 0..k + 1 {
        match summed(pivots, residuals, k, start, j, column) {
            Ok(sum) => {
                if !is_same(sum, matrix.cell(k, j)) {
                    return Ok(false);
                }
            }
            Err(Wide) => return Err(Wide),
        }
        column += j;
    }
    Ok(true)
}

/// The same of the lists.
fn lists_agree(matrix: &Matrix, pivots: &[Frac], residuals: &[Frac]) -> Result<bool, Wide>
    requires matrix { IsMatrix matrix.now.side matrix.now.cells }
    requires shape { HasShape pivots.now residuals.now }
    requires side { length pivots.now ≡ matrix.now.side }
    ensures { CheckGives (entries matrix.now.side matrix.now.cells) (part pivots.now residuals.now) matrix.now.side result }
{
    if !is_weighed(pivots, residuals) {
        return Ok(false);
    }
    let mut start: usize = 0;
    for k in 0..pivots.len() {
        match row_agrees(matrix, pivots, residuals, k, start) {
            Ok(true) => start += k,
            Ok(false) => return Ok(false),
            Err(Wide) => return Err(Wide),
        }
    }
    Ok(true)
}

/// Whether the squares sum to the form of the symmetric matrix, and no weight is negative.
///
/// First no pivot may be negative, and each residual in a column whose pivot is 0 must be 0. Then the squares' cells are summed, row
/// by row and column by column, and compared with the matrix's. `Wide` exactly where a number so formed is wide and no test
/// before it failed. `CheckGives` of `specs/Check.antt` says this, and the laws `check_says` and `one_check` what it means.
pub fn check_squares(matrix: &Matrix, squares: &Squares) -> Result<bool, Wide>
    requires symmetric { IsSymmetric matrix.now.side matrix.now.cells }
    requires side { squares.now.side ≡ matrix.now.side }
    ensures { CheckGives (entries matrix.now.side matrix.now.cells) (part squares.now.pivots squares.now.residuals) matrix.now.side result }
{
    lists_agree(
        matrix,
        squares.pivots.as_slice(),
        squares.residuals.as_slice(),
    )
}
