//! A step, pivot by pivot.
ghost use Rattle.std.specs.Prelude.{◌≡◌, ◌≢◌, ◌<◌, pos, length};
ghost use Rattle.emp_dict.specs.declared.label.Label.TheVariants.{Objective};
ghost use Rattle.emp_dict.specs.Dictionary.{cell_at, row_label};
ghost use Rattle.emp_dict.specs.Dicts.{dictionary_of};
ghost use Rattle.emp_step.specs.Levels.{IsLevel};
ghost use Rattle.emp_step.specs.Steps.{StepGives, repeated};
ghost use Rattle.emp_face.specs.Budgets.{units_left};
ghost use Rattle.emp_face.specs.Runs.{TaskFits, TurnGives, looks};

use crate::budget::Budget;
use crate::look::{Next, Task, look};
use emp_dict::dict::Dict;
use emp_step::outcome::{Outcome, StepFault};

/// Takes one unit of work, and makes the pivot.
fn turn(dict: &mut Dict, row: usize, column: usize, budget: &mut Budget) -> Result<(), StepFault>
    requires row { row < length (dictionary_of dict.old).rows }
    requires column { column < length (dictionary_of dict.old).columns }
    requires quantity { row_label (dictionary_of dict.old) row ≢ Objective }
    requires nonzero { cell_at (dictionary_of dict.old) row column ≢ pos 0 }
    ensures turn { TurnGives row column (dictionary_of dict.old) (dictionary_of dict.new) (units_left budget.old) (units_left budget.new) result }
    ensures limit { budget.new.limit ≡ budget.old.limit }
{
    let Ok(()) = budget.take() else {
        return Err(StepFault::Spent);
    };
    let Ok(()) = dict.pivot(row, column) else {
        return Err(StepFault::Wide);
    };
    Ok(())
}

/// Makes the turns of a step until it is over. A fault leaves the dictionary as the last pivot left it.
pub fn run(dict: &mut Dict, task: Task, budget: &mut Budget) -> Result<Outcome, StepFault>
    requires level { IsLevel (dictionary_of dict.old) }
    requires task { TaskFits task (dictionary_of dict.old) }
    ensures step { StepGives (repeated (looks task) (units_left budget.old) (dictionary_of dict.old)) (dictionary_of dict.new) (units_left budget.new) result }
    ensures limit { budget.new.limit ≡ budget.old.limit }
    ensures marks { (dictionary_of dict.new).marks ≡ (dictionary_of dict.old).marks }
{
    loop {
        match look(dict, task) {
            Next::Over(outcome) => return Ok(outcome),
            Next::Turn(row, column) => turn(dict, row, column, budget)?,
        }
    }
}
