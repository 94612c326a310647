//! One number's step in a pivot, and whether a number that it forms is wide.
ghost use Rattle.std.specs.Prelude.{◌≡◌, ◌≢◌, ◌<◌, ◌<ℤ◌, pos, ◌*ℤ◌, ◌+ℤ◌, length, slice_index_or, false, IsTrue};
ghost use Rattle.std.specs.List.{All};
ghost use Rattle.emp_num.specs.Exact.{IsNarrow};
ghost use Rattle.emp_line.specs.Pivot.{is_wide, step_wide};
ghost use Rattle.emp_line.specs.Sparse.{numbers, no_cell, summed, turned_cell};
ghost use Rattle.emp_line.specs.Place.{IsSmall, StepGives, factors_of};

use crate::cells::Cell;
use crate::line::{against_sign, with_sign};
use crate::pairs::Pair;
use emp_num::exact::{Wide, product, sum};

/// What a line and the turned line are multiplied with, so that the column's quantity goes out of their sum.
#[derive(Clone, Copy)]
pub struct Multipliers {
    pub own: i128,
    pub other: i128,
}

/// The sum of the two numbers' products with the multipliers.
#[tactic(auto, using(crate::proofs::Parts::stepping))]
fn step(multipliers: Multipliers, pair: Pair) -> Result<i128, Wide>
    ensures { StepGives (factors_of multipliers) pair.own pair.other result }
{
    let left = product(multipliers.own, pair.own)?;
    let right = product(multipliers.other, pair.other)?;
    sum(left, right)
}

/// Whether one of the two products or their sum is wide.
pub fn step_is_wide(multipliers: Multipliers, pair: Pair) -> bool
    ensures { result ≡ step_wide (factors_of multipliers) pair.own pair.other }
{
    match step(multipliers, pair) {
        Ok(_) => false,
        Err(Wide) => true,
    }
}

/// The sum of the two numbers' products with the multipliers, where none of the three numbers is wide.
#[tactic(auto, using(crate::proofs::Parts::parting))]
pub fn sum_of(multipliers: Multipliers, pair: Pair) -> i128
    requires { step_wide (factors_of multipliers) pair.own pair.other ≡ false }
    ensures { result ≡ multipliers.own *ℤ pair.own +ℤ multipliers.other *ℤ pair.other }
{
    multipliers.own * pair.own + multipliers.other * pair.other
}

/// The same as a cell.
pub fn summed_cell(multipliers: Multipliers, pair: Pair) -> Cell
    requires { step_wide (factors_of multipliers) pair.own pair.other ≡ false }
    ensures { result ≡ summed (factors_of multipliers) pair }
{
    Cell {
        column: pair.column,
        number: sum_of(multipliers, pair),
    }
}

/// What turns a line: its number in the pivot's column, and its denominator.
#[derive(Clone, Copy)]
pub struct Turner {
    pub head: i128,
    pub denom: i128,
}

/// The cell at a place as the line is solved for the quantity of a column.
pub fn cell_turned(turner: Turner, column: usize, cells: &[Cell], at: usize) -> Cell
    requires at { at < length cells.now }
    requires nonzero { turner.head ≢ pos 0 }
    requires denom { IsNarrow turner.denom }
    requires narrow { IsNarrow (slice_index_or cells.now at no_cell).number }
    ensures { result ≡ turned_cell turner.head turner.denom column (slice_index_or cells.now at no_cell) }
{
    let cell = cells[at];
    if cell.column == column {
        Cell {
            column,
            number: with_sign(turner.head, turner.denom),
        }
    } else {
        Cell {
            column: cell.column,
            number: against_sign(turner.head, cell.number),
        }
    }
}

/// 2^62: products of two numbers below it in absolute value, and sums of two such products, are not wide.
pub const SMALL: i128 = 4611686018427387904;

/// Whether all numbers of the cells are below 2^62 in absolute value.
#[tactic(auto, using(crate::proofs::Cellwise::sizing))]
pub fn are_small(cells: &[Cell]) -> bool
    ensures { IsTrue result → All IsSmall (numbers cells.now) }
{
    for k in 0..cells.len() {
        if cells[k].number <= -SMALL || cells[k].number >= SMALL {
            return false;
        }
    }
    true
}
