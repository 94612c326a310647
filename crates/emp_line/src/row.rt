//! Lines that keep their cells other than 0 alone, and their steps in a pivot.
ghost use Rattle.std.specs.Prelude.{◌≡◌, ◌≢◌, ◌<◌, ◌^◌, ◌<ℤ◌, ◌*ℤ◌, pos, neg_ℤ, false, length, slice_set, unsigned_abs, Some, IfOk, IsTrue};
ghost use Rattle.emp_algebra.specs.Vector.{cell};
ghost use Rattle.emp_num.specs.Exact.{IsNarrow};
ghost use Rattle.emp_num.specs.Gcd.{content_from, gcd_of};
ghost use Rattle.emp_line.specs.Pivot.{combination_wide, combined, factors, is_wide, line_content, moved, reduced, sign, steps_wide, turned};
ghost use Rattle.emp_line.specs.Lines.{IsLine};
ghost use Rattle.emp_line.specs.Indexed.{HasFlags, HasPlace, IsFlagged, IsMarked};
ghost use Rattle.emp_line.specs.Place.{IsPlace, IsSmallLine, Rises, divided_line, factors_of, moved_wide};

use crate::cells::{Cell, Cells};
use crate::divide::{common_of, content_within, count_divisor, divider_for, quotient};
use crate::fill::{fill_divided, fill_from, fill_sums, fill_turned, pairs_are_wide};
use crate::index::mark_cells;
use crate::line::{against_sign, with_sign};
use crate::pairs::Pair;
use crate::step::{Multipliers, SMALL, Turner, are_small, step_is_wide, sum_of};
use emp_list::memory::NoMemory;
use emp_list::seq::Seq;
use emp_num::exact::{Wide, product};
use std::alloc::Global;
use std::marker::Model;

/// A line that keeps its cells other than 0 alone, in order of columns, with room for one in each column. Contracts see the whole `Line`.
#[derive(Drop)]
pub struct Row {
    denom: i128,
    constant: i128,
    cells: Cells,
}

impl Model for Row {
    ghost use Rattle.emp_line.specs.declared.line.Line.{Line};
    ghost use Rattle.emp_line.specs.Sparse.{IsSparse, spread};

    ghost Value = { Line };

    ghost view = { λ r. record { denom = r.denom; constant = r.constant; cells = spread 0 r.cells.width r.cells.items } };

    ghost invariant = { λ r. IsSparse 0 r.cells.width r.cells.items };
}

/// How many of the cells stand before a column.
#[tactic(auto, using(crate::proofs::Spread::searching))]
fn place_of(cells: &[Cell], column: usize) -> usize
    requires { Rises cells.now }
    ensures { IsPlace cells.now column result }
{
    let mut low = 0;
    let mut high = cells.len();
    while low < high {
        let middle = low + (high - low) / 2;
        if cells[middle].column < column {
            low = middle + 1;
        } else {
            high = middle;
        }
    }
    low
}

/// The denominator of a turned line.
fn turned_denom(turner: Turner) -> i128
    requires nonzero { turner.head ≢ pos 0 }
    requires narrow { IsNarrow turner.head }
    ensures { result ≡ sign turner.head *ℤ turner.head }
{
    with_sign(turner.head, turner.head)
}

/// The constant of a turned line.
fn turned_constant(turner: Turner, line: &Row) -> i128
    requires nonzero { turner.head ≢ pos 0 }
    requires narrow { IsNarrow line.now.constant }
    ensures { result ≡ neg_ℤ (sign turner.head) *ℤ line.now.constant }
{
    against_sign(turner.head, line.constant)
}

impl Row {
    /// A line of so many columns; what it says is not promised.
    #[tactic(auto, using(crate::proofs::Rows::starting))]
    pub fn new(alloc: Global, width: usize) -> Result<Row, NoMemory>
        ensures { IfOk result (λ row. length row.cells ≡ width) }
    {
        let cells = Cells::new(alloc, width)?;
        Ok(Row {
            denom: 1,
            constant: 0,
            cells,
        })
    }

    /// The line with this denominator, this constant and these numbers in its columns.
    pub fn of(alloc: Global, denom: i128, constant: i128, numbers: &[i128]) -> Result<Row, NoMemory>
        ensures { IfOk result (λ row. row ≡ record { denom = denom; constant = constant; cells = numbers.now }) }
    {
        let mut cells = Cells::new(alloc, numbers.len())?;
        fill_from(&mut cells, numbers);
        Ok(Row {
            denom,
            constant,
            cells,
        })
    }

    /// How many columns the line has.
    #[tactic(auto, using(crate::proofs::Rows::starting))]
    pub fn width(&self) -> usize
        ensures { result ≡ length self.now.cells }
    {
        self.cells.width()
    }

    /// The denominator, which is above 0 in a dictionary.
    pub fn denom(&self) -> i128
        ensures { result ≡ self.now.denom }
    {
        self.denom
    }

    /// The constant.
    pub fn constant(&self) -> i128
        ensures { result ≡ self.now.constant }
    {
        self.constant
    }

    /// The cell in a column.
    #[tactic(auto, using(crate::proofs::Spread::finding))]
    pub fn cell(&self, column: usize) -> i128
        requires { column < length self.now.cells }
        ensures { result ≡ cell self.now.cells column }
    {
        let cells = self.cells.as_slice();
        let at = place_of(cells, column);
        if at < cells.len() && cells[at].column == column {
            cells[at].number
        } else {
            0
        }
    }

    /// The same line once more, with the same room.
    pub fn copy(&self, alloc: Global) -> Result<Row, NoMemory>
        ensures { IfOk result (λ row. row ≡ self.now) }
    {
        Ok(Row {
            denom: self.denom,
            constant: self.constant,
            cells: self.cells.copy(alloc)?,
        })
    }

    /// Whether all numbers of the line are below 2^62 in absolute value.
    #[tactic(auto, using(crate::proofs::Rows::sizing))]
    pub fn is_small(&self) -> bool
        ensures { IsTrue result → IsSmallLine self.now }
    {
        if self.denom <= -SMALL || self.denom >= SMALL {
            return false;
        }
        if self.constant <= -SMALL || self.constant >= SMALL {
            return false;
        }
        are_small(self.cells.as_slice())
    }

    /// What turns the line.
    fn turner(&self, column: usize) -> Turner
        requires { column < length self.now.cells }
        ensures head { result.head ≡ cell self.now.cells column }
        ensures denom { result.denom ≡ self.now.denom }
    {
        Turner {
            head: self.cell(column),
            denom: self.denom,
        }
    }

    /// The row solved for the quantity of a column, in place of this one.
    pub fn set_turned(&mut self, pivot: &Row, column: usize)
        requires sound { IsLine (length pivot.now.cells) pivot.now }
        requires width { length self.old.cells ≡ length pivot.now.cells }
        requires column { column < length pivot.now.cells }
        requires nonzero { cell pivot.now.cells column ≢ pos 0 }
        ensures { self.new ≡ turned pivot.now column }
    {
        let turner = pivot.turner(column);
        self.denom = turned_denom(turner);
        self.constant = turned_constant(turner, pivot);
        fill_turned(&mut self.cells, pivot.cells.as_slice(), turner, column);
    }

    /// What this line and the turned line are multiplied with, so that the column's quantity goes out of their sum.
    fn multipliers(&self, pivot: &Row, column: usize) -> Multipliers
        requires positive { pos 0 <ℤ pivot.now.denom }
        requires narrow { IsNarrow pivot.now.denom }
        requires column { column < length self.now.cells }
        ensures { factors_of result ≡ factors pivot.now.denom (cell self.now.cells column) }
    {
        let own = self.cell(column);
        let common = common_of(pivot.denom, own);
        Multipliers {
            own: quotient(pivot.denom, common),
            other: quotient(own, common),
        }
    }

    /// Whether the line's denominator times the multiplier is wide.
    fn denom_is_wide(&self, multipliers: Multipliers) -> bool
        ensures { result ≡ is_wide (multipliers.own *ℤ self.now.denom) }
    {
        match product(multipliers.own, self.denom) {
            Ok(_) => false,
            Err(Wide) => true,
        }
    }

    /// The constants of this line and the turned one, as the numbers of one column.
    fn constants(&self, pivot: &Row) -> Pair
        ensures own { result.own ≡ self.now.constant }
        ensures other { result.other ≡ pivot.now.constant }
    {
        Pair {
            column: 0,
            own: self.constant,
            other: pivot.constant,
        }
    }

    /// Whether a number is wide that is formed as the line is moved by the turned line. Small lines form none, and are not tested.
    #[tactic(auto, using(crate::proofs::Rows::testing))]
    pub fn is_wide(&self, small: bool, pivot: &Row, column: usize) -> bool
        requires small { IsTrue small → IsSmallLine pivot.now }
        requires sound { IsLine (length pivot.now.cells) pivot.now }
        requires width { length pivot.now.cells ≡ length self.now.cells }
        requires column { column < length self.now.cells }
        requires nonzero { cell self.now.cells column ≢ pos 0 }
        ensures { result ≡ moved_wide pivot.now column self.now }
    {
        if small && self.is_small() {
            return false;
        }
        self.combination_is_wide(self.multipliers(pivot, column), pivot, column)
    }

    /// The same for the multipliers.
    fn combination_is_wide(&self, multipliers: Multipliers, pivot: &Row, column: usize) -> bool
        requires width { length pivot.now.cells ≡ length self.now.cells }
        requires column { column < length self.now.cells }
        ensures { result ≡ combination_wide (factors_of multipliers) self.now pivot.now column }
    {
        self.denom_is_wide(multipliers)
            || step_is_wide(multipliers, self.constants(pivot))
            || self.cells_are_wide(multipliers, pivot, column)
    }

    /// The same for the cells.
    fn cells_are_wide(&self, multipliers: Multipliers, pivot: &Row, column: usize) -> bool
        requires width { length pivot.now.cells ≡ length self.now.cells }
        requires column { column < length self.now.cells }
        ensures { result ≡ steps_wide (factors_of multipliers) (slice_set self.now.cells column (pos 0)) pivot.now.cells }
    {
        pairs_are_wide(
            multipliers,
            self.cells.as_slice(),
            pivot.cells.as_slice(),
            column,
        )
    }

    /// The line's denominator times the multiplier.
    #[tactic(auto, using(crate::proofs::Parts::parting))]
    fn denom_step(&self, multipliers: Multipliers) -> i128
        requires { IsNarrow (multipliers.own *ℤ self.now.denom) }
        ensures { result ≡ multipliers.own *ℤ self.now.denom }
    {
        multipliers.own * self.denom
    }

    /// The sum of another line's and the turned line's multiples, in place of this line; the other line's cell in the column is struck out.
    fn set_sum(&mut self, multipliers: Multipliers, line: &Row, pivot: &Row, column: usize)
        requires widths { (length line.now.cells ≡ length self.old.cells) × (length pivot.now.cells ≡ length self.old.cells) }
        requires column { column < length line.now.cells }
        requires narrow { combination_wide (factors_of multipliers) line.now pivot.now column ≡ false }
        ensures { self.new ≡ combined (factors_of multipliers) line.now pivot.now column }
    {
        self.denom = line.denom_step(multipliers);
        self.constant = sum_of(multipliers, line.constants(pivot));
        fill_sums(
            &mut self.cells,
            multipliers,
            line.cells.as_slice(),
            pivot.cells.as_slice(),
            column,
        );
    }

    /// What the denominator and the cell in the column have in common.
    fn seed(&self, column: usize) -> u128
        requires { column < length self.now.cells }
        ensures { result ≡ gcd_of (unsigned_abs self.now.denom) (unsigned_abs (cell self.now.cells column)) }
    {
        count_divisor(self.denom.unsigned_abs(), self.cell(column).unsigned_abs())
    }

    /// What the seed and the constant have in common.
    fn grown(&self, seed: u128) -> u128
        ensures { result ≡ gcd_of seed (unsigned_abs self.now.constant) }
    {
        count_divisor(seed, self.constant.unsigned_abs())
    }

    /// What the seed and all cells have in common.
    fn content(&self, seed: u128) -> u128
        ensures { result ≡ content_from seed self.now.cells }
    {
        content_within(seed, self.cells.as_slice())
    }

    /// What all numbers of the line have in common. It is looked for first in the denominator and one column.
    #[tactic(auto, using(crate::proofs::Seeds::seeding))]
    fn divisor(&self, column: usize) -> u128
        requires sound { IsLine (length self.now.cells) self.now }
        requires column { column < length self.now.cells }
        ensures value { pos result ≡ line_content self.now }
        ensures positive { 0 < result }
        ensures narrow { result < 2 ^ 126 }
    {
        let seed = self.seed(column);
        if seed == 1 {
            return 1;
        }
        self.content(self.grown(seed))
    }

    /// Another line divided by what its numbers have in common, in place of this line.
    fn set_divided(&mut self, line: &Row, divisor: u128)
        requires width { length line.now.cells ≡ length self.old.cells }
        requires value { pos divisor ≡ line_content line.now }
        requires positive { 0 < divisor }
        requires narrow { divisor < 2 ^ 126 }
        ensures { self.new ≡ divided_line line.now (pos divisor) }
    {
        self.denom = quotient(line.denom, divisor);
        self.constant = quotient(line.constant, divisor);
        fill_divided(&mut self.cells, line.cells.as_slice(), divider_for(divisor));
    }

    /// The other line divided by what its numbers have in common, in place of this line; the other one has a line of as many columns then.
    #[tactic(auto, using(crate::proofs::Seeds::reducing))]
    fn take_reduced(&mut self, line: &mut Row, column: usize)
        requires sound { IsLine (length line.old.cells) line.old }
        requires width { length line.old.cells ≡ length self.old.cells }
        requires column { column < length line.old.cells }
        ensures reduced { self.new ≡ reduced line.old }
        ensures width { length line.new.cells ≡ length line.old.cells }
    {
        let divisor = line.divisor(column);
        if divisor == 1 {
            std::mem::swap(self, line);
        } else {
            self.set_divided(line, divisor);
        }
    }

    /// Moves the line by a turned line, so that the column's quantity goes out of it. `spare` lends its place.
    pub fn move_by(&mut self, pivot: &Row, column: usize, spare: &mut Row)
        requires line { IsLine (length self.old.cells) self.old }
        requires pivot { IsLine (length self.old.cells) pivot.now }
        requires spare { length spare.old.cells ≡ length self.old.cells }
        requires column { column < length self.old.cells }
        requires nonzero { cell self.old.cells column ≢ pos 0 }
        requires narrow { moved_wide pivot.now column self.old ≡ false }
        ensures moved { moved pivot.now column self.old ≡ Some self.new }
        ensures width { length self.new.cells ≡ length self.old.cells }
        ensures spare { length spare.new.cells ≡ length spare.old.cells }
    {
        let multipliers = self.multipliers(pivot, column);
        spare.set_sum(multipliers, self, pivot, column);
        self.take_reduced(spare, column);
    }

    /// Sets or takes away the flags of line `at` of an index in the columns of this line's cells.
    pub fn mark(&self, index: &mut Seq<Seq<bool>>, at: usize, value: bool)
        requires { HasPlace (length self.now.cells) at index.old }
        ensures { IsMarked self.now at value index.old index.new }
    {
        mark_cells(index, self.cells.as_slice(), at, value);
    }

    /// The same as `move_by`, with the flags of the line, which has number `at`.
    #[tactic(auto, using(crate::proofs::Tables::flagging))]
    pub fn move_flagged(
        &mut self,
        pivot: &Row,
        column: usize,
        spare: &mut Row,
        index: &mut Seq<Seq<bool>>,
        at: usize,
    )
        requires line { IsLine (length self.old.cells) self.old }
        requires pivot { IsLine (length self.old.cells) pivot.now }
        requires spare { length spare.old.cells ≡ length self.old.cells }
        requires column { column < length self.old.cells }
        requires nonzero { cell self.old.cells column ≢ pos 0 }
        requires narrow { moved_wide pivot.now column self.old ≡ false }
        requires index { HasPlace (length self.old.cells) at index.old }
        requires flags { HasFlags self.old at index.old }
        ensures moved { moved pivot.now column self.old ≡ Some self.new }
        ensures width { length self.new.cells ≡ length self.old.cells }
        ensures spare { length spare.new.cells ≡ length spare.old.cells }
        ensures index { IsFlagged self.new at index.old index.new }
    {
        self.mark(index, at, false);
        self.move_by(pivot, column, spare);
        self.mark(index, at, true);
    }
}
