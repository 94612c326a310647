//! The index of lines by columns: for each column and each line, whether the line has a cell other than 0 there.
ghost use Rattle.std.specs.Prelude.{ℕ, ◌≡◌, ◌<◌, [], length, replicate, slice_index_or, slice_set, false, IfOk};
ghost use Rattle.emp_line.specs.Sparse.{no_cell};
ghost use Rattle.emp_line.specs.Indexed.{flag};
ghost use Rattle.emp_line.specs.Place.{MarksCells};

use crate::cells::Cell;
use emp_list::memory::NoMemory;
use emp_list::seq::Seq;
use std::alloc::Global;

/// So many flags that are not set.
#[tactic(auto, using(crate::proofs::Marks::counting))]
fn flags(alloc: Global, count: usize) -> Result<Seq<bool>, NoMemory>
    ensures { IfOk result (λ flags. flags ≡ replicate count false) }
{
    let mut out = Seq::new(alloc);
    for at in 0..count {
        out.push(false)?;
    }
    Ok(out)
}

/// An index of so many columns and lines in which no flag is set.
#[tactic(auto, using(crate::proofs::Marks::counting))]
pub fn blank(alloc: Global, columns: usize, lines: usize) -> Result<Seq<Seq<bool>>, NoMemory>
    ensures { IfOk result (λ index. index ≡ replicate columns (replicate lines false)) }
{
    let mut out = Seq::new(alloc);
    for at in 0..columns {
        out.push(flags(alloc, lines)?)?;
    }
    Ok(out)
}

/// The same index once more.
#[tactic(auto, using(crate::proofs::Marks::copying))]
pub fn copy_index(alloc: Global, index: &[Seq<bool>]) -> Result<Seq<Seq<bool>>, NoMemory>
    ensures { IfOk result (λ copy. copy ≡ index.now) }
{
    let mut out = Seq::new(alloc);
    for at in 0..index.len() {
        out.push(index[at].copy(alloc)?)?;
    }
    Ok(out)
}

/// Whether a line has a cell in a column.
pub fn has(index: &[Seq<bool>], column: usize, line: usize) -> bool
    requires column { column < length index.now }
    requires line { line < length (slice_index_or index.now column []) }
    ensures { result ≡ flag index.now column line }
{
    index[column].as_slice()[line]
}

/// Sets or takes away one flag.
pub fn set_flag(index: &mut Seq<Seq<bool>>, column: usize, line: usize, value: bool)
    requires column { column < length index.old }
    requires line { line < length (slice_index_or index.old column []) }
    ensures { index.new ≡ slice_set index.old column (slice_set (slice_index_or index.old column []) line value) }
{
    index.get_mut(column).set(line, value);
}

/// Sets or takes away the flags of one line in the columns of the cells.
#[tactic(auto, using(crate::proofs::Marks::marking))]
pub fn mark_cells(index: &mut Seq<Seq<bool>>, cells: &[Cell], line: usize, value: bool)
    requires columns { (i : ℕ) → i < length cells.now → (slice_index_or cells.now i no_cell).column < length index.old }
    requires places { (k : ℕ) → k < length index.old → line < length (slice_index_or index.old k []) }
    ensures { MarksCells cells.now line value index.old index.new }
{
    for at in 0..cells.len() {
        set_flag(index, cells[at].column, line, value);
    }
}
