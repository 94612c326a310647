//! The lines of a dictionary with an index by columns, and the exchange of a line's quantity with that of a column.
ghost use Rattle.std.specs.Prelude.{◌≡◌, ◌≢◌, ℕ, ◌<◌, pos, length, slice_index_or, Some, true, false, IsTrue, IfOk};
ghost use Rattle.std.specs.List.{All};
ghost use Rattle.emp_algebra.specs.Vector.{cell};
ghost use Rattle.emp_line.specs.Pivot.{moved, no_line, pivoted, pivoted_from};
ghost use Rattle.emp_line.specs.Lines.{IsLine, line_after};
ghost use Rattle.emp_line.specs.Indexed.{has_cell, flag, IsIndex, IsTable};
ghost use Rattle.emp_line.specs.Place.{IsSmallLine, PivotGives, is_none, moved_wide};

use crate::index::{blank, copy_index, has};
use crate::row::Row;
use emp_list::memory::NoMemory;
use emp_list::seq::Seq;
use emp_num::exact::Wide;
use std::alloc::Global;
use std::marker::Model;

/// The lines of a dictionary, each with its cells other than 0 alone, and an index by columns. Contracts see the list of whole lines.
#[derive(Drop)]
pub struct Table {
    lines: Seq<Row>,
    index: Seq<Seq<bool>>,
    /// Their places are lent to the lines that a pivot makes.
    turned: Row,
    spare: Row,
}

impl Model for Table {
    ghost use Rattle.std.specs.Prelude.{List};
    ghost use Rattle.emp_line.specs.declared.line.Line.{Line};
    ghost use Rattle.emp_line.specs.Indexed.{IsTable};

    ghost Value = { List Line };

    ghost view = { λ t. t.lines };

    ghost invariant = { λ t. IsTable t.index t.turned t.spare t.lines };
}

/// Whether a number is wide that is formed as line number `at` is moved by the turned line of number `row`, which forms none itself. `has` says
/// whether the line has a cell in the column.
#[tactic(auto, using(crate::proofs::Tables::testing))]
fn numbered_is_wide(
    small: bool,
    pivot: &Row,
    row: usize,
    column: usize,
    at: usize,
    line: &Row,
    has: bool,
) -> bool
    requires small { IsTrue small → IsSmallLine pivot.now }
    requires sound { IsLine (length pivot.now.cells) pivot.now }
    requires width { length pivot.now.cells ≡ length line.now.cells }
    requires column { column < length line.now.cells }
    requires has { has ≡ has_cell line.now column }
    ensures { result ≡ is_none (line_after at pivot.now row column line.now) }
{
    if at == row {
        return false;
    }
    if !has {
        return false;
    }
    line.is_wide(small, pivot, column)
}

/// Whether a number is wide that is formed by the pivot of line `row`, which is turned into `pivot`. `flags` says which lines have a cell in the
/// column.
#[tactic(auto, using(crate::proofs::Tables::testing))]
fn some_is_wide(lines: &[Row], flags: &[bool], pivot: &Row, row: usize, column: usize) -> bool
    requires sound { IsLine (length pivot.now.cells) pivot.now }
    requires lines { All (IsLine (length pivot.now.cells)) lines.now }
    requires column { column < length pivot.now.cells }
    requires count { length flags.now ≡ length lines.now }
    requires flags { (i : ℕ) → i < length lines.now → slice_index_or flags.now i false ≡ has_cell (slice_index_or lines.now i no_line) column }
    ensures { result ≡ is_none (pivoted_from 0 pivot.now row column lines.now) }
{
    let small = pivot.is_small();
    for at in 0..lines.len() {
        if numbered_is_wide(small, pivot, row, column, at, &lines[at], flags[at]) {
            return true;
        }
    }
    false
}

/// All lines but number `row` moved by its turned line, in place, with their flags.
#[tactic(auto, using(crate::proofs::Tables::moving))]
fn move_others(
    lines: &mut Seq<Row>,
    index: &mut Seq<Seq<bool>>,
    pivot: &Row,
    spare: &mut Row,
    row: usize,
    column: usize,
)
    requires pivot { IsLine (length pivot.now.cells) pivot.now }
    requires spare { length spare.old.cells ≡ length pivot.now.cells }
    requires column { column < length pivot.now.cells }
    requires index { IsIndex (length pivot.now.cells) index.old lines.old }
    requires lines { (i : ℕ) → i < length lines.old → IsLine (length pivot.now.cells) (slice_index_or lines.old i no_line) }
    requires narrow { (i : ℕ) → i < length lines.old → i ≢ row → moved_wide pivot.now column (slice_index_or lines.old i no_line) ≡ false }
    ensures count { length lines.new ≡ length lines.old }
    ensures row { slice_index_or lines.new row no_line ≡ slice_index_or lines.old row no_line }
    ensures others { (i : ℕ) → i < length lines.old → i ≢ row → moved pivot.now column (slice_index_or lines.old i no_line) ≡ Some (slice_index_or lines.new i no_line) }
    ensures widths { (i : ℕ) → i < length lines.new → length (slice_index_or lines.new i no_line).cells ≡ length pivot.now.cells }
    ensures index { IsIndex (length pivot.now.cells) index.new lines.new }
    ensures spare { length spare.new.cells ≡ length pivot.now.cells }
{
    for at in 0..lines.len() {
        if at != row && has(index.as_slice(), column, at) {
            lines
                .get_mut(at)
                .move_flagged(pivot, column, spare, index, at);
        }
    }
}

/// Exchanges the quantity of line `row` with that of `column`, in place, and keeps the index.
///
/// `Wide` comes exactly where a formed number has absolute value 2^126 or more; the lines are then unchanged. `turned` and `spare` lend their
/// places.
fn pivot_rows(
    lines: &mut Seq<Row>,
    index: &mut Seq<Seq<bool>>,
    turned: &mut Row,
    spare: &mut Row,
    row: usize,
    column: usize,
) -> Result<(), Wide>
    requires table { IsTable index.old turned.old spare.old lines.old }
    requires row { row < length lines.old }
    requires lines { All (IsLine (length (slice_index_or lines.old row no_line).cells)) lines.old }
    requires column { column < length (slice_index_or lines.old row no_line).cells }
    requires nonzero { cell (slice_index_or lines.old row no_line).cells column ≢ pos 0 }
    ensures gives { PivotGives (pivoted lines.old row column) lines.old lines.new result }
    ensures table { IsTable index.new turned.new spare.new lines.new }
{
    turned.set_turned(lines.get(row), column);
    let flags = index.get(column).as_slice();
    if some_is_wide(lines.as_slice(), flags, turned, row, column) {
        return Err(Wide);
    }
    move_others(lines, index, turned, spare, row, column);
    lines.swap_in(row, turned);
    Ok(())
}

/// The same lines once more.
#[tactic(auto, using(crate::proofs::Tables::copying))]
fn copy_rows(alloc: Global, lines: &[Row]) -> Result<Seq<Row>, NoMemory>
    ensures { IfOk result (λ copy. copy ≡ lines.now) }
{
    let mut out = Seq::new(alloc);
    for at in 0..lines.len() {
        out.push(lines[at].copy(alloc)?)?;
    }
    Ok(out)
}

/// The index of lines of so many columns.
#[tactic(auto, using(crate::proofs::Tables::indexing))]
fn index_of(alloc: Global, width: usize, lines: &[Row]) -> Result<Seq<Seq<bool>>, NoMemory>
    requires { (i : ℕ) → i < length lines.now → length (slice_index_or lines.now i no_line).cells ≡ width }
    ensures { IfOk result (λ index. IsIndex width index lines.now) }
{
    let mut index = blank(alloc, width, lines.len())?;
    for at in 0..lines.len() {
        lines[at].mark(&mut index, at, true);
    }
    Ok(index)
}

/// The table of lines with their index, and places of as many columns that are lent.
fn with_index(
    alloc: Global,
    width: usize,
    lines: Seq<Row>,
    index: Seq<Seq<bool>>,
) -> Result<Table, NoMemory>
    requires lines { (i : ℕ) → i < length lines → length (slice_index_or lines i no_line).cells ≡ width }
    requires index { IsIndex width index lines }
    ensures { IfOk result (λ table. table ≡ lines) }
{
    let turned = Row::new(alloc, width)?;
    let spare = Row::new(alloc, width)?;
    Ok(Table {
        lines,
        index,
        turned,
        spare,
    })
}

impl Table {
    /// The table of lines of so many columns.
    pub fn of(alloc: Global, width: usize, lines: Seq<Row>) -> Result<Table, NoMemory>
        requires { (i : ℕ) → i < length lines → length (slice_index_or lines i no_line).cells ≡ width }
        ensures { IfOk result (λ table. table ≡ lines) }
    {
        let index = index_of(alloc, width, lines.as_slice())?;
        with_index(alloc, width, lines, index)
    }

    /// The same lines once more. It leaves this table alone.
    pub fn copy(&self, alloc: Global) -> Result<Table, NoMemory>
        ensures { IfOk result (λ table. table ≡ self.now) }
    {
        let lines = copy_rows(alloc, self.lines.as_slice())?;
        let index = copy_index(alloc, self.index.as_slice())?;
        with_index(alloc, self.turned.width(), lines, index)
    }

    /// How many lines there are.
    pub fn len(&self) -> usize
        ensures { result ≡ length self.now }
    {
        self.lines.len()
    }

    /// The denominator of a line.
    pub fn denom(&self, row: usize) -> i128
        requires { row < length self.now }
        ensures { result ≡ (slice_index_or self.now row no_line).denom }
    {
        self.lines.get(row).denom()
    }

    /// The constant of a line.
    pub fn constant(&self, row: usize) -> i128
        requires { row < length self.now }
        ensures { result ≡ (slice_index_or self.now row no_line).constant }
    {
        self.lines.get(row).constant()
    }

    /// The cell of a line in a column.
    pub fn cell(&self, row: usize, column: usize) -> i128
        requires row { row < length self.now }
        requires column { column < length (slice_index_or self.now row no_line).cells }
        ensures { result ≡ cell (slice_index_or self.now row no_line).cells column }
    {
        self.lines.get(row).cell(column)
    }

    /// Whether a line has a cell other than 0 in a column.
    pub fn has(&self, row: usize, column: usize) -> bool
        requires row { row < length self.now }
        requires column { column < length (slice_index_or self.now row no_line).cells }
        ensures { result ≡ has_cell (slice_index_or self.now row no_line) column }
    {
        has(self.index.as_slice(), column, row)
    }

    /// Exchanges the quantity of line `row` with that of `column`. It takes no memory.
    ///
    /// `Wide` comes exactly where a formed number has absolute value 2^126 or more; the lines are then unchanged.
    pub fn pivot(&mut self, row: usize, column: usize) -> Result<(), Wide>
        requires row { row < length self.old }
        requires lines { All (IsLine (length (slice_index_or self.old row no_line).cells)) self.old }
        requires column { column < length (slice_index_or self.old row no_line).cells }
        requires nonzero { cell (slice_index_or self.old row no_line).cells column ≢ pos 0 }
        ensures { PivotGives (pivoted self.old row column) self.old self.new result }
    {
        pivot_rows(
            &mut self.lines,
            &mut self.index,
            &mut self.turned,
            &mut self.spare,
            row,
            column,
        )
    }
}
