//! A dictionary, its parts, and its pivot.
ghost use Rattle.std.specs.Prelude.{◌≡◌, ◌≢◌, ◌<◌, ◌≤◌, ◌+◌, pos, length, OnOk, OnErr, IfOk};
ghost use Rattle.emp_line.specs.Indexed.{has_cell};
ghost use Rattle.emp_dict.specs.Dictionary.{IsSound, line_at, cell_at, row_label, column_label, mark_at, row_of, marked, started};
ghost use Rattle.emp_dict.specs.declared.label.Label.TheVariants.{Objective};

use crate::label::{Label, Mark};
use crate::start::{bases, start_labels, start_table, unasked};
use emp_line::table::Table;
use emp_list::memory::NoMemory;
use emp_list::seq::Seq;
use emp_num::exact::Wide;
use emp_rows::system::RowSystem;
use std::alloc::Global;

/// Rows that tell the base variables, the quantities and the objective of a row system by those of its columns.
///
/// What it stands for is `dictionary_of` in `specs/Dicts.antt`. At its point all columns are 0.
#[derive(Drop)]
pub struct Dict {
    table: Table,
    rows: Seq<Label>,
    columns: Seq<Label>,
    marks: Seq<Mark>,
    pub ghost sound: { IsSound (record { lines = table; rows = rows; columns = columns; marks = marks }) },
}

impl Dict {
    ghost use Rattle.emp_dict.specs.Dicts.{dictionary_of, PivotGives};

    /// The dictionary of a row system at the start: a row for each quantity, and a last one for the objective where there is one. The columns
    /// are the base variables, and nothing is asked of any quantity.
    pub fn start(alloc: Global, system: &RowSystem) -> Result<Dict, NoMemory>
        ensures { IfOk result (λ d. dictionary_of d ≡ started system.now.base system.now.quantities system.now.objective) }
    {
        let count = system.quantities.len();
        Ok(Dict {
            table: start_table(alloc, system)?,
            rows: start_labels(alloc, count, &system.objective)?,
            columns: bases(alloc, system.base as usize)?,
            marks: unasked(alloc, count)?,
        })
    }

    /// An equal dictionary. It leaves this one alone.
    pub fn copy(&self, alloc: Global) -> Result<Dict, NoMemory>
        ensures { IfOk result (λ copy. dictionary_of copy ≡ dictionary_of self.now) }
    {
        Ok(Dict {
            table: self.table.copy(alloc)?,
            rows: self.rows.copy(alloc)?,
            columns: self.columns.copy(alloc)?,
            marks: self.marks.copy(alloc)?,
        })
    }

    /// How many rows there are.
    pub fn rows(&self) -> usize
        ensures { result ≡ length (dictionary_of self.now).rows }
    {
        self.rows.len()
    }

    /// How many columns there are: one for each base variable.
    pub fn columns(&self) -> usize
        ensures { result ≡ length (dictionary_of self.now).columns }
    {
        self.columns.len()
    }

    /// How many quantities there are. Where there is an objective, its row has this number.
    pub fn quantities(&self) -> usize
        ensures { result ≡ length (dictionary_of self.now).marks }
    {
        self.marks.len()
    }

    /// The denominator of a row, which is above 0.
    pub fn denom(&self, row: usize) -> i128
        requires { row < length (dictionary_of self.now).rows }
        ensures { result ≡ (line_at (dictionary_of self.now) row).denom }
    {
        self.table.denom(row)
    }

    /// The constant of a row.
    pub fn constant(&self, row: usize) -> i128
        requires { row < length (dictionary_of self.now).rows }
        ensures { result ≡ (line_at (dictionary_of self.now) row).constant }
    {
        self.table.constant(row)
    }

    /// The cell of a row in a column.
    pub fn cell(&self, row: usize, column: usize) -> i128
        requires row { row < length (dictionary_of self.now).rows }
        requires column { column < length (dictionary_of self.now).columns }
        ensures { result ≡ cell_at (dictionary_of self.now) row column }
    {
        self.table.cell(row, column)
    }

    /// Whether a row has a cell other than 0 in a column.
    pub fn has_cell(&self, row: usize, column: usize) -> bool
        requires row { row < length (dictionary_of self.now).rows }
        requires column { column < length (dictionary_of self.now).columns }
        ensures { result ≡ has_cell (line_at (dictionary_of self.now) row) column }
    {
        self.table.has(row, column)
    }

    /// What a row tells.
    pub fn row_label(&self, row: usize) -> Label
        requires { row < length (dictionary_of self.now).rows }
        ensures { result ≡ row_label (dictionary_of self.now) row }
    {
        self.rows.as_slice()[row]
    }

    /// What a column stands for.
    pub fn column_label(&self, column: usize) -> Label
        requires { column < length (dictionary_of self.now).columns }
        ensures { result ≡ column_label (dictionary_of self.now) column }
    {
        self.columns.as_slice()[column]
    }

    /// The mark of a quantity, which is numbered from 1.
    pub fn mark(&self, k: u32) -> Mark
        requires { (0 < k) × (k ≤ length (dictionary_of self.now).marks) }
        ensures { result ≡ mark_at (dictionary_of self.now) k }
    {
        self.marks.as_slice()[(k - 1) as usize]
    }

    /// Changes the mark of one quantity, and nothing else.
    pub fn set_mark(&mut self, k: u32, mark: Mark)
        requires { (0 < k) × (k ≤ length (dictionary_of self.old).marks) }
        ensures { dictionary_of self.new ≡ marked (dictionary_of self.old) k mark }
    {
        self.marks.set((k - 1) as usize, mark);
    }

    /// The row of a label, and none where the label has a column.
    #[tactic(auto, using(crate::proofs::Labels::placing))]
    pub fn row_of(&self, label: Label) -> Option<usize>
        ensures { result ≡ row_of (dictionary_of self.now) label }
    {
        for at in 0..self.rows.len() {
            if self.rows.as_slice()[at] == label {
                return Some(at);
            }
        }
        None
    }

    /// Exchanges a row with a column. It takes no memory.
    ///
    /// `Wide` comes exactly where a formed number has absolute value 2^126 or more. The dictionary is then unchanged.
    pub fn pivot(&mut self, row: usize, column: usize) -> Result<(), Wide>
        requires row { row < length (dictionary_of self.old).rows }
        requires column { column < length (dictionary_of self.old).columns }
        requires quantity { row_label (dictionary_of self.old) row ≢ Objective }
        requires nonzero { cell_at (dictionary_of self.old) row column ≢ pos 0 }
        ensures { PivotGives row column self.old self.new result }
    {
        self.table.pivot(row, column)?;
        let mut label = self.rows.as_slice()[row];
        self.columns.swap_in(column, &mut label);
        self.rows.set(row, label);
        Ok(())
    }
}
