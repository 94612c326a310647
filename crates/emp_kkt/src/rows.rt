//! Quantities of whole numbers from what is asked.
ghost use Rattle.std.specs.Prelude.{◌≡◌, ◌<◌, ◌≤◌, length, IfOk, slice_index_or};
ghost use Rattle.std.specs.List.{All};
ghost use Rattle.emp_rows.specs.Affine.{IsRow};
ghost use Rattle.emp_kkt.specs.declared.asked.Item.TheVariants.{Goal as AGoal};
ghost use Rattle.emp_kkt.specs.Making.{IsLayout, ItemFits, CellsGive, RowGives, RowAtGives, RowsGive, ObjectiveGives};

use crate::asked::Item;
use crate::cells::{item_bases, item_cell, item_constant};
use crate::extras::Extra;
use crate::make::KktFault;
use emp_list::seq::Seq;
use emp_num::frac::Frac;
use emp_problem::problem::AgentProblem;
use emp_rows::affine::Affine;
use emp_rows::primitive::{RowFault, primitive};
use std::alloc::Global;

/// The coefficients of all base variables.
#[tactic(auto, using(crate::proofs::Forming::collecting))]
fn item_cells(
    alloc: Global,
    problem: &AgentProblem,
    extras: &[Extra],
    base: usize,
    item: Item,
) -> Result<Seq<Frac>, RowFault>
    requires layout { IsLayout problem.now extras.now }
    requires fits { ItemFits problem.now item }
    ensures { CellsGive problem.now item base result }
{
    let bases = item_bases(alloc, problem, extras, item)?;
    let mut out = Seq::new(alloc);
    for at in 0..base {
        let cell = item_cell(problem, bases.as_slice(), item, at)?;
        out.push(cell)?;
    }
    Ok(out)
}

/// The quantity.
#[tactic(auto, using(crate::proofs::Forming::row_gives))]
fn item_row(
    alloc: Global,
    problem: &AgentProblem,
    extras: &[Extra],
    base: usize,
    item: Item,
) -> Result<Affine, RowFault>
    requires layout { IsLayout problem.now extras.now }
    requires fits { ItemFits problem.now item }
    ensures { RowGives problem.now base item result }
{
    let cells = item_cells(alloc, problem, extras, base, item)?;
    primitive(alloc, cells.as_slice(), item_constant(problem, item))
}

/// The quantity of this number, from 1.
fn numbered_row(
    alloc: Global,
    problem: &AgentProblem,
    extras: &[Extra],
    base: usize,
    item: Item,
    number: u32,
) -> Result<Affine, KktFault>
    requires layout { IsLayout problem.now extras.now }
    requires fits { ItemFits problem.now item }
    ensures { RowAtGives problem.now base item number result }
{
    match item_row(alloc, problem, extras, base, item) {
        Ok(row) => Ok(row),
        Err(RowFault::Wide) => Err(KktFault::WideRow(number)),
        Err(RowFault::NoMemory) => Err(KktFault::NoMemory),
    }
}

/// All quantities, in order.
#[tactic(auto, using(crate::proofs::Forming::forming))]
pub fn rows_of(
    alloc: Global,
    problem: &AgentProblem,
    extras: &[Extra],
    base: usize,
    items: &[Item],
) -> Result<Seq<Affine>, KktFault>
    requires layout { IsLayout problem.now extras.now }
    requires few { length items.now ≤ 512 }
    requires fit { All (ItemFits problem.now) items.now }
    ensures { RowsGive problem.now base items.now result }
{
    let mut out = Seq::new(alloc);
    for at in 0..items.len() {
        let row = numbered_row(alloc, problem, extras, base, items[at], at as u32 + 1)?;
        let Ok(()) = out.push(row) else {
            return Err(KktFault::NoMemory);
        };
    }
    Ok(out)
}

/// The leader's objective, of this number, where there is a leader.
pub fn objective_of(
    alloc: Global,
    problem: &AgentProblem,
    extras: &[Extra],
    base: usize,
    number: u32,
) -> Result<Option<Affine>, KktFault>
    requires layout { IsLayout problem.now extras.now }
    ensures { ObjectiveGives problem.now base problem.now.leader number result }
{
    match &problem.leader {
        None => Ok(None),
        Some(_) => {
            let row = numbered_row(alloc, problem, extras, base, Item::Goal, number)?;
            Ok(Some(row))
        }
    }
}
