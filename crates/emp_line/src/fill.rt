//! Lists of cells made from others.
ghost use Rattle.std.specs.Prelude.{◌≡◌, ◌≢◌, ◌<◌, ◌≤◌, ◌^◌, ◌++◌, [], pos, false, length, map};
ghost use Rattle.std.specs.List.{All};
ghost use Rattle.emp_algebra.specs.Vector.{cell};
ghost use Rattle.emp_num.specs.Exact.{IsNarrow};
ghost use Rattle.emp_line.specs.Sparse.{IsSparse, numbers, divided, kept, pairs, pairs_wide, spread, sums, turned_cell};
ghost use Rattle.emp_line.specs.Place.{factors_of};

use crate::cells::{Cell, Cells};
use crate::divide::{Divider, divided_cell};
use crate::pairs::next_pair;
use crate::step::{Multipliers, Turner, cell_turned, step_is_wide, summed_cell};

/// Puts a cell at the end where its number is not 0.
pub fn keep(cells: &mut Cells, cell: Cell)
    requires { length cells.old.items < cells.old.width }
    ensures { cells.new ≡ record { width = cells.old.width; items = cells.old.items ++ kept cell [] } }
{
    if cell.number != 0 {
        cells.push(cell);
    }
}

/// The number of a whole list in a column, as a cell.
fn cell_of(numbers: &[i128], column: usize) -> Cell
    requires { column < length numbers.now }
    ensures { result ≡ record { column = column; number = cell numbers.now column } }
{
    Cell {
        column,
        number: numbers[column],
    }
}

/// The numbers other than 0 of a whole list, in place of other cells.
#[tactic(auto, using(crate::proofs::Filling::spreading))]
pub fn fill_from(cells: &mut Cells, numbers: &[i128])
    requires { cells.old.width ≡ length numbers.now }
    ensures width { cells.new.width ≡ cells.old.width }
    ensures sparse { IsSparse 0 cells.old.width cells.new.items }
    ensures cells { spread 0 cells.old.width cells.new.items ≡ numbers.now }
{
    cells.clear();
    for column in 0..numbers.len() {
        keep(cells, cell_of(numbers, column));
    }
}

/// The cells of a line that is solved for the quantity of a column, in place of others.
#[tactic(auto, using(crate::proofs::Filling::mapping))]
pub fn fill_turned(cells: &mut Cells, from: &[Cell], turner: Turner, column: usize)
    requires room { length from.now ≤ cells.old.width }
    requires nonzero { turner.head ≢ pos 0 }
    requires denom { IsNarrow turner.denom }
    requires narrow { All IsNarrow (numbers from.now) }
    ensures { cells.new ≡ record { width = cells.old.width; items = map (turned_cell turner.head turner.denom column) from.now } }
{
    cells.clear();
    for at in 0..from.len() {
        cells.push(cell_turned(turner, column, from, at));
    }
}

/// Cells divided by a count, in place of others.
#[tactic(auto, using(crate::proofs::Filling::mapping))]
pub fn fill_divided(cells: &mut Cells, from: &[Cell], divider: Divider)
    requires room { length from.now ≤ cells.old.width }
    requires positive { 0 < divider.divisor }
    requires narrow { divider.divisor < 2 ^ 126 }
    ensures { cells.new ≡ record { width = cells.old.width; items = map (divided (pos divider.divisor)) from.now } }
{
    cells.clear();
    for at in 0..from.len() {
        cells.push(divided_cell(from, at, divider));
    }
}

/// Whether a number is wide that is formed in one of the columns of two lines; the first line's cell in `column` is struck out.
#[tactic(auto, using(crate::proofs::Filling::testing))]
pub fn pairs_are_wide(multipliers: Multipliers, own: &[Cell], other: &[Cell], column: usize) -> bool
    ensures { result ≡ pairs_wide (factors_of multipliers) (pairs column own.now other.now) }
{
    let mut own_at = 0;
    let mut other_at = 0;
    while own_at < own.len() || other_at < other.len() {
        let next = next_pair(own, other, own_at, other_at, column);
        if step_is_wide(multipliers, next.pair) {
            return true;
        }
        own_at = next.own_at;
        other_at = next.other_at;
    }
    false
}

/// The sum of two lines' multiples, in place of other cells; the first line's cell in `column` is struck out.
#[tactic(auto, using(crate::proofs::Filling::summing))]
pub fn fill_sums(
    cells: &mut Cells,
    multipliers: Multipliers,
    own: &[Cell],
    other: &[Cell],
    column: usize,
)
    requires room { length (pairs column own.now other.now) ≤ cells.old.width }
    requires narrow { pairs_wide (factors_of multipliers) (pairs column own.now other.now) ≡ false }
    ensures { cells.new ≡ record { width = cells.old.width; items = sums (factors_of multipliers) (pairs column own.now other.now) } }
{
    cells.clear();
    let mut own_at = 0;
    let mut other_at = 0;
    while own_at < own.len() || other_at < other.len() {
        let next = next_pair(own, other, own_at, other_at, column);
        keep(cells, summed_cell(multipliers, next.pair));
        own_at = next.own_at;
        other_at = next.other_at;
    }
}
