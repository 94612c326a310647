//! The parts of a dictionary at the start.
ghost use Rattle.std.specs.Prelude.{◌≡◌, ◌<◌, ◌^◌, ◌++◌, map, replicate, IfOk};
ghost use Rattle.emp_dict.specs.Dictionary.{bases_from, line_of, objective_labels, objective_lines, quantities_from};
ghost use Rattle.emp_dict.specs.declared.label.Mark.TheVariants.{Unasked};

use crate::label::{Label, Mark};
use emp_line::row::Row;
use emp_line::table::Table;
use emp_list::memory::NoMemory;
use emp_list::seq::Seq;
use emp_rows::affine::Affine;
use emp_rows::system::RowSystem;
use std::alloc::Global;

/// The base variables from 1 up to a count.
#[tactic(auto, using(crate::proofs::Built::counting))]
pub fn bases(alloc: Global, count: usize) -> Result<Seq<Label>, NoMemory>
    requires { count < 2 ^ 31 }
    ensures { IfOk result (λ labels. labels ≡ bases_from 1 count) }
{
    let mut out = Seq::new(alloc);
    for at in 0..count {
        out.push(Label::Base(at as u32 + 1))?;
    }
    Ok(out)
}

/// The quantities from 1 up to a count.
#[tactic(auto, using(crate::proofs::Built::counting))]
pub fn quantities(alloc: Global, count: usize) -> Result<Seq<Label>, NoMemory>
    requires { count < 2 ^ 31 }
    ensures { IfOk result (λ labels. labels ≡ quantities_from 1 count) }
{
    let mut out = Seq::new(alloc);
    for at in 0..count {
        out.push(Label::Quantity(at as u32 + 1))?;
    }
    Ok(out)
}

/// So many marks of quantities of which nothing is asked yet.
#[tactic(auto, using(crate::proofs::Built::counting))]
pub fn unasked(alloc: Global, count: usize) -> Result<Seq<Mark>, NoMemory>
    ensures { IfOk result (λ marks. marks ≡ replicate count Unasked) }
{
    let mut out = Seq::new(alloc);
    for at in 0..count {
        out.push(Mark::Unasked)?;
    }
    Ok(out)
}

/// An affine quantity as a line.
fn row_of(alloc: Global, row: &Affine) -> Result<Row, NoMemory>
    ensures { IfOk result (λ line. line ≡ line_of row.now) }
{
    Row::of(alloc, 1, row.constant, row.cells.as_slice())
}

/// Affine quantities as lines.
#[tactic(auto, using(crate::proofs::Built::lining))]
fn rows_of(alloc: Global, rows: &[Affine]) -> Result<Seq<Row>, NoMemory>
    ensures { IfOk result (λ lines. lines ≡ map line_of rows.now) }
{
    let mut out = Seq::new(alloc);
    for at in 0..rows.len() {
        out.push(row_of(alloc, &rows[at])?)?;
    }
    Ok(out)
}

/// The lines at the start: one for each quantity, and a last one for the objective where there is one.
fn start_lines(
    alloc: Global,
    rows: &[Affine],
    objective: &Option<Affine>,
) -> Result<Seq<Row>, NoMemory>
    ensures { IfOk result (λ lines. lines ≡ map line_of rows.now ++ objective_lines objective.now) }
{
    let mut out = rows_of(alloc, rows)?;
    if let Some(row) = objective {
        out.push(row_of(alloc, row)?)?;
    }
    Ok(out)
}

/// The table at the start.
pub fn start_table(alloc: Global, system: &RowSystem) -> Result<Table, NoMemory>
    ensures { IfOk result (λ table. table ≡ map line_of system.now.quantities ++ objective_lines system.now.objective) }
{
    let lines = start_lines(alloc, system.quantities.as_slice(), &system.objective)?;
    Table::of(alloc, system.base as usize, lines)
}

/// What they tell: so many quantities, and the objective where there is one.
pub fn start_labels(
    alloc: Global,
    count: usize,
    objective: &Option<Affine>,
) -> Result<Seq<Label>, NoMemory>
    requires { count < 2 ^ 31 }
    ensures { IfOk result (λ labels. labels ≡ quantities_from 1 count ++ objective_labels objective.now) }
{
    let mut out = quantities(alloc, count)?;
    if let Some(_row) = objective {
        out.push(Label::Objective)?;
    }
    Ok(out)
}
