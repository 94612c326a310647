//! The three steps.
ghost use Rattle.std.specs.Prelude.{◌≡◌, ◌≢◌, ◌<◌, ◌≤◌, length};
ghost use Rattle.emp_dict.specs.declared.label.Mark.TheVariants.{Unasked, Fixed};
ghost use Rattle.emp_dict.specs.Dictionary.{mark_at};
ghost use Rattle.emp_dict.specs.Dicts.{dictionary_of};
ghost use Rattle.emp_step.specs.Laws.{IsNumber, HasObjective};
ghost use Rattle.emp_step.specs.Levels.{IsLevel};
ghost use Rattle.emp_step.specs.Steps.{StepGives, bested, ended, fixed, mark_by, raised};
ghost use Rattle.emp_face.specs.Budgets.{units_left};

use crate::budget::Budget;
use crate::look::Task;
use crate::run::run;
use emp_dict::dict::Dict;
use emp_dict::label::Mark;
use emp_step::outcome::{Outcome, StepFault};

/// Gives quantity `k` its mark where the step holds.
fn mark_held(dict: &mut Dict, k: u32, mark: Mark, outcome: Outcome)
    requires { IsNumber (dictionary_of dict.old) k }
    ensures { dictionary_of dict.new ≡ mark_by (ended outcome) k mark (dictionary_of dict.old) }
{
    if outcome == Outcome::Held {
        dict.set_mark(k, mark);
    }
}

/// Makes quantity `k`, of which nothing was asked yet, at least 0, and keeps it so.
///
/// `Empty` where no point with the Fixed quantities at 0 has it at least 0. `Wide` exactly where the next pivot forms a wide number, `Spent`
/// exactly where a pivot is next and no unit is left. A fault leaves the dictionary as the last pivot left it.
pub fn raise(dict: &mut Dict, k: u32, budget: &mut Budget) -> Result<Outcome, StepFault>
    requires level { IsLevel (dictionary_of dict.old) }
    requires number { IsNumber (dictionary_of dict.old) k }
    requires unasked { mark_at (dictionary_of dict.old) k ≡ Unasked }
    ensures step { StepGives (raised (units_left budget.old) k (dictionary_of dict.old)) (dictionary_of dict.new) (units_left budget.new) result }
    ensures limit { budget.new.limit ≡ budget.old.limit }
    ensures level { IsLevel (dictionary_of dict.new) }
{
    let outcome = run(dict, Task::Raise(k), budget)?;
    mark_held(dict, k, Mark::Required, outcome);
    Ok(outcome)
}

/// Makes quantity `k`, which is Unasked or Required, 0, and keeps it so.
///
/// `Empty` where no point with the Fixed quantities at 0 has it at 0. The faults are those of `raise`.
pub fn fix(dict: &mut Dict, k: u32, budget: &mut Budget) -> Result<Outcome, StepFault>
    requires level { IsLevel (dictionary_of dict.old) }
    requires number { IsNumber (dictionary_of dict.old) k }
    requires free { mark_at (dictionary_of dict.old) k ≢ Fixed }
    ensures step { StepGives (fixed (units_left budget.old) k (dictionary_of dict.old)) (dictionary_of dict.new) (units_left budget.new) result }
    ensures limit { budget.new.limit ≡ budget.old.limit }
    ensures level { IsLevel (dictionary_of dict.new) }
{
    let outcome = run(dict, Task::Fix(k), budget)?;
    mark_held(dict, k, Mark::Fixed, outcome);
    Ok(outcome)
}

/// Makes the objective least over the points that the Required and Fixed quantities leave.
///
/// `Best` names its row, `Ray` the column along which it falls without end. The faults are those of `raise`.
pub fn best(dict: &mut Dict, budget: &mut Budget) -> Result<Outcome, StepFault>
    requires level { IsLevel (dictionary_of dict.old) }
    requires objective { HasObjective (dictionary_of dict.old) }
    ensures step { StepGives (bested (units_left budget.old) (dictionary_of dict.old)) (dictionary_of dict.new) (units_left budget.new) result }
    ensures limit { budget.new.limit ≡ budget.old.limit }
    ensures level { IsLevel (dictionary_of dict.new) }
{
    run(dict, Task::Least, budget)
}
