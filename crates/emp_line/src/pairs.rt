//! Two lines side by side.
ghost use Rattle.std.specs.Prelude.{◌≡◌, ◌+◌, ◌<◌, ◌≤◌, ◌⊎◌, length, slice_index_or};
ghost use Rattle.emp_line.specs.Sparse.{no_cell, struck, first_alone, second_alone, both_cells};
ghost use Rattle.emp_line.specs.Place.{IsNext};

use crate::cells::Cell;

/// The numbers of two lines in one column.
#[derive(Clone, Copy)]
pub struct Pair {
    pub column: usize,
    pub own: i128,
    pub other: i128,
}

/// The next pair, and how many cells of either line come before the pair after it.
#[derive(Clone, Copy)]
pub struct Next {
    pub pair: Pair,
    pub own_at: usize,
    pub other_at: usize,
}

/// The cell at a place, with 0 in the column `column`.
fn struck(cells: &[Cell], at: usize, column: usize) -> Cell
    requires { at < length cells.now }
    ensures place { result.column ≡ (slice_index_or cells.now at no_cell).column }
    ensures number { result.number ≡ struck column (slice_index_or cells.now at no_cell) }
{
    if cells[at].column == column {
        Cell { column, number: 0 }
    } else {
        cells[at]
    }
}

/// The first line's cell at a place, in a column in which the second one has none.
fn first_alone(own: &[Cell], at: usize, column: usize) -> Pair
    requires { at < length own.now }
    ensures { result ≡ first_alone column (slice_index_or own.now at no_cell) }
{
    let cell = struck(own, at, column);
    Pair {
        column: cell.column,
        own: cell.number,
        other: 0,
    }
}

/// The second line's cell at a place, in a column in which the first one has none.
fn second_alone(other: &[Cell], at: usize) -> Pair
    requires { at < length other.now }
    ensures { result ≡ second_alone (slice_index_or other.now at no_cell) }
{
    Pair {
        column: other[at].column,
        own: 0,
        other: other[at].number,
    }
}

/// The cells of the two lines in one column.
fn both(own: &[Cell], other: &[Cell], own_at: usize, other_at: usize, column: usize) -> Pair
    requires own { own_at < length own.now }
    requires other { other_at < length other.now }
    ensures { result ≡ both_cells column (slice_index_or own.now own_at no_cell) (slice_index_or other.now other_at no_cell) }
{
    let cell = struck(own, own_at, column);
    Pair {
        column: cell.column,
        own: cell.number,
        other: other[other_at].number,
    }
}

/// The first line's cell at a place alone, and the places after it.
fn from_first(own: &[Cell], own_at: usize, other_at: usize, column: usize) -> Next
    requires { own_at < length own.now }
    ensures pair { result.pair ≡ first_alone column (slice_index_or own.now own_at no_cell) }
    ensures own { result.own_at ≡ own_at + 1 }
    ensures other { result.other_at ≡ other_at }
{
    Next {
        pair: first_alone(own, own_at, column),
        own_at: own_at + 1,
        other_at,
    }
}

/// The second line's cell at a place alone, and the places after it.
fn from_second(other: &[Cell], own_at: usize, other_at: usize) -> Next
    requires { other_at < length other.now }
    ensures pair { result.pair ≡ second_alone (slice_index_or other.now other_at no_cell) }
    ensures own { result.own_at ≡ own_at }
    ensures other { result.other_at ≡ other_at + 1 }
{
    Next {
        pair: second_alone(other, other_at),
        own_at,
        other_at: other_at + 1,
    }
}

/// The next pair where both lines have cells left.
#[tactic(auto, using(crate::proofs::Beside::stepping))]
fn next_of_two(own: &[Cell], other: &[Cell], own_at: usize, other_at: usize, column: usize) -> Next
    requires own { own_at < length own.now }
    requires other { other_at < length other.now }
    ensures { IsNext column own.now other.now own_at other_at result }
{
    if own[own_at].column < other[other_at].column {
        return from_first(own, own_at, other_at, column);
    }
    if other[other_at].column < own[own_at].column {
        return from_second(other, own_at, other_at);
    }
    Next {
        pair: both(own, other, own_at, other_at, column),
        own_at: own_at + 1,
        other_at: other_at + 1,
    }
}

/// The numbers of two lines in the first column, from the two places on, in which one of them has a cell; the first line's cell in the
/// column `column` is struck out.
#[tactic(auto, using(crate::proofs::Beside::stepping))]
pub fn next_pair(
    own: &[Cell],
    other: &[Cell],
    own_at: usize,
    other_at: usize,
    column: usize,
) -> Next
    requires own { own_at ≤ length own.now }
    requires other { other_at ≤ length other.now }
    requires some { (own_at < length own.now) ⊎ (other_at < length other.now) }
    ensures { IsNext column own.now other.now own_at other_at result }
{
    if own_at == own.len() {
        return from_second(other, own_at, other_at);
    }
    if other_at == other.len() {
        return from_first(own, own_at, other_at, column);
    }
    next_of_two(own, other, own_at, other_at, column)
}
