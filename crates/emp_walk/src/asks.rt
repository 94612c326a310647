//! What a node asks, and the work on its dictionary.
ghost use Rattle.std.specs.Prelude.{◌≡◌, ◌<◌, ℕ, length, IfOk};
ghost use Rattle.emp_dict.specs.Dictionary.{mark_at};
ghost use Rattle.emp_dict.specs.declared.label.Mark.TheVariants.{Unasked};
ghost use Rattle.emp_dict.specs.Dicts.{dictionary_of};
ghost use Rattle.emp_face.specs.Budgets.{units_left};
ghost use Rattle.emp_search.specs.Search.{asked, asks_from, worked};
ghost use Rattle.emp_step.specs.Steps.{StepGives};
ghost use Rattle.emp_walk.specs.Fits.{AsksFit, DoneFits, IsAt, asks_of};

use crate::kept::{Kept, Steps};
use emp_face::budget::Budget;
use emp_rows::system::{Kind, RowSystem};
use emp_step::outcome::{Outcome, StepFault};

/// What a node asks of its dictionary.
#[derive(Clone, Copy, Debug, PartialEq, Eq)]
pub enum Asks {
    /// Each quantity in order, by its kind.
    Root,
    /// That the quantity of this number is 0.
    Child(u32),
}

/// Raises or fixes each quantity in order, until one cannot be.
fn ask_all<S: Steps>(
    steps: &mut S,
    system: &RowSystem,
    dict: &mut Kept,
    budget: &mut Budget,
) -> Result<Outcome, StepFault>
    requires at { IsAt system.now (dictionary_of dict.old) }
    requires unasked { (q : ℕ) → mark_at (dictionary_of dict.old) q ≡ Unasked }
    ensures step { StepGives (asked (asks_from 1 system.now.kinds) (units_left budget.old) (dictionary_of dict.old)) (dictionary_of dict.new) (units_left budget.new) result }
    ensures limit { budget.new.limit ≡ budget.old.limit }
    ensures fits { IfOk result (DoneFits system.now (dictionary_of dict.new)) }
{
    for at in 0..system.kinds.len() {
        let kind = system.kinds.as_slice()[at];
        let outcome = dict.ask(steps, system, at as u32 + 1, kind, budget)?;
        if outcome != Outcome::Held {
            return Ok(outcome);
        }
    }
    Ok(Outcome::Held)
}

/// Does what a node asks.
pub fn ask_each<S: Steps>(
    steps: &mut S,
    system: &RowSystem,
    dict: &mut Kept,
    asks: Asks,
    budget: &mut Budget,
) -> Result<Outcome, StepFault>
    requires at { IsAt system.now (dictionary_of dict.old) }
    requires asks { AsksFit (dictionary_of dict.old) asks }
    ensures step { StepGives (asked (asks_of system.now asks) (units_left budget.old) (dictionary_of dict.old)) (dictionary_of dict.new) (units_left budget.new) result }
    ensures limit { budget.new.limit ≡ budget.old.limit }
    ensures fits { IfOk result (DoneFits system.now (dictionary_of dict.new)) }
{
    match asks {
        Asks::Root => ask_all(steps, system, dict, budget),
        Asks::Child(k) => dict.ask(steps, system, k, Kind::Zero, budget),
    }
}

/// Does what a node asks, and then makes the objective least, where there is one.
pub fn work<S: Steps>(
    steps: &mut S,
    system: &RowSystem,
    dict: &mut Kept,
    asks: Asks,
    budget: &mut Budget,
) -> Result<Outcome, StepFault>
    requires at { IsAt system.now (dictionary_of dict.old) }
    requires asks { AsksFit (dictionary_of dict.old) asks }
    ensures step { StepGives (worked system.now (asks_of system.now asks) (units_left budget.old) (dictionary_of dict.old)) (dictionary_of dict.new) (units_left budget.new) result }
    ensures limit { budget.new.limit ≡ budget.old.limit }
    ensures fits { IfOk result (DoneFits system.now (dictionary_of dict.new)) }
{
    let outcome = ask_each(steps, system, dict, asks, budget)?;
    if outcome != Outcome::Held {
        return Ok(outcome);
    }
    match &system.objective {
        Some(_) => dict.least(steps, system, budget),
        None => Ok(outcome),
    }
}
