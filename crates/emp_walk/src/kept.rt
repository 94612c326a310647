//! The dictionaries that a search keeps, and the steps by which alone it moves them.
ghost use Rattle.std.specs.Prelude.{◌≡◌, ◌<◌, length, IfOk, Some};
ghost use Rattle.emp_dict.specs.Dicts.{dictionary_of};
ghost use Rattle.emp_face.specs.Budgets.{units_left};
ghost use Rattle.emp_rows.specs.declared.affine.Affine.{Affine};
ghost use Rattle.emp_rows.specs.declared.system.Kind.TheVariants.{Nonneg, Zero};
ghost use Rattle.emp_decide.specs.Laws.{started_of};
ghost use Rattle.emp_search.specs.Search.{ask_of, step_of};
ghost use Rattle.emp_step.specs.Laws.{HasObjective};
ghost use Rattle.emp_step.specs.Levels.{IsLevel};
ghost use Rattle.emp_step.specs.Steps.{StepGives, bested, fixed, raised};
ghost use Rattle.emp_walk.specs.Fits.{AskFits, AskedFits, DoneFits, IsAt};

use emp_dict::dict::Dict;
use emp_face::budget::Budget;
use emp_face::steps::{best, fix, raise};
use emp_list::memory::NoMemory;
use emp_rows::system::{Kind, RowSystem};
use emp_step::outcome::{Outcome, StepFault};
use std::alloc::Global;
use std::marker::Model;

/// The steps on a dictionary, as a search asks for them. Each pivot of a step takes one unit of the budget.
///
/// `FaceSteps` takes those of the layer below. Another member may look at what they take, as a test does that counts pivots.
pub trait Steps {
    /// Makes a quantity of which nothing was asked at least 0, and keeps it so, as `emp_face::steps::raise` does.
    fn raise(&mut self, dict: &mut Dict, k: u32, budget: &mut Budget) -> Result<Outcome, StepFault>
        requires level { IsLevel (dictionary_of dict.old) }
        requires asks { AskFits (dictionary_of dict.old) k Nonneg }
        ensures step { StepGives (raised (units_left budget.old) k (dictionary_of dict.old)) (dictionary_of dict.new) (units_left budget.new) result }
        ensures limit { budget.new.limit ≡ budget.old.limit };

    /// Makes a quantity that is not fixed 0, and keeps it so, as `emp_face::steps::fix` does.
    fn fix(&mut self, dict: &mut Dict, k: u32, budget: &mut Budget) -> Result<Outcome, StepFault>
        requires level { IsLevel (dictionary_of dict.old) }
        requires asks { AskFits (dictionary_of dict.old) k Zero }
        ensures step { StepGives (fixed (units_left budget.old) k (dictionary_of dict.old)) (dictionary_of dict.new) (units_left budget.new) result }
        ensures limit { budget.new.limit ≡ budget.old.limit };

    /// Makes the objective least, as `emp_face::steps::best` does.
    fn best(&mut self, dict: &mut Dict, budget: &mut Budget) -> Result<Outcome, StepFault>
        requires level { IsLevel (dictionary_of dict.old) }
        requires objective { HasObjective (dictionary_of dict.old) }
        ensures step { StepGives (bested (units_left budget.old) (dictionary_of dict.old)) (dictionary_of dict.new) (units_left budget.new) result }
        ensures limit { budget.new.limit ≡ budget.old.limit };
}

/// The steps of the layer below, and nothing besides.
#[derive(Clone, Copy)]
pub struct FaceSteps;

impl Steps for FaceSteps {
    fn raise(
        &mut self,
        dict: &mut Dict,
        k: u32,
        budget: &mut Budget,
    ) -> Result<Outcome, StepFault> {
        raise(dict, k, budget)
    }

    fn fix(&mut self, dict: &mut Dict, k: u32, budget: &mut Budget) -> Result<Outcome, StepFault> {
        fix(dict, k, budget)
    }

    fn best(&mut self, dict: &mut Dict, budget: &mut Budget) -> Result<Outcome, StepFault> {
        best(dict, budget)
    }
}

/// A dictionary that a search keeps: that of the node that is next, of an open branch or of the incumbent. Contracts see the dictionary.
///
/// Steps alone move it, so that each pivot of a search is one of a step.
#[derive(Drop)]
pub struct Kept {
    dict: Dict,
}

impl Model for Kept {
    ghost use Rattle.emp_dict.specs.declared.dict.Dict.{Dict};

    ghost Value = { Dict };

    ghost view = { λ kept. kept.dict };
}

impl Kept {
    /// The dictionary of a row system at the start.
    pub fn start(alloc: Global, system: &RowSystem) -> Result<Kept, NoMemory>
        ensures { IfOk result (λ kept. dictionary_of kept ≡ started_of system.now) }
    {
        let dict = Dict::start(alloc, system)?;
        Ok(Kept { dict })
    }

    /// An equal dictionary. It leaves this one alone.
    pub fn copy(&self, alloc: Global) -> Result<Kept, NoMemory>
        ensures { IfOk result (λ copy. dictionary_of copy ≡ dictionary_of self.now) }
    {
        let dict = self.dict.copy(alloc)?;
        Ok(Kept { dict })
    }

    /// The dictionary, to be read.
    pub fn dictionary(&self) -> &Dict
        ensures { result.now ≡ self.now }
    {
        &self.dict
    }

    /// Raises or fixes a quantity by its kind.
    pub fn ask<S: Steps>(
        &mut self,
        steps: &mut S,
        system: &RowSystem,
        k: u32,
        kind: Kind,
        budget: &mut Budget,
    ) -> Result<Outcome, StepFault>
        requires at { IsAt system.now (dictionary_of self.old) }
        requires asks { AskFits (dictionary_of self.old) k kind }
        ensures step { StepGives (step_of (ask_of k kind) (units_left budget.old) (dictionary_of self.old)) (dictionary_of self.new) (units_left budget.new) result }
        ensures limit { budget.new.limit ≡ budget.old.limit }
        ensures fits { IfOk result (AskedFits system.now (dictionary_of self.old) (dictionary_of self.new) k) }
    {
        match kind {
            Kind::Zero => steps.fix(&mut self.dict, k, budget),
            Kind::Nonneg => steps.raise(&mut self.dict, k, budget),
        }
    }

    /// Makes the objective least.
    pub fn least<S: Steps>(
        &mut self,
        steps: &mut S,
        system: &RowSystem,
        budget: &mut Budget,
    ) -> Result<Outcome, StepFault>
        requires at { IsAt system.now (dictionary_of self.old) }
        requires objective { (o : Affine) × (system.now.objective ≡ Some o) }
        ensures step { StepGives (bested (units_left budget.old) (dictionary_of self.old)) (dictionary_of self.new) (units_left budget.new) result }
        ensures limit { budget.new.limit ≡ budget.old.limit }
        ensures fits { IfOk result (DoneFits system.now (dictionary_of self.new)) }
    {
        steps.best(&mut self.dict, budget)
    }
}
