//! The pivots that a search makes, counted step by step.
use crate::systems::{falling, paired};
use emp_dict::dict::Dict;
use emp_face::budget::Budget;
use emp_face::steps;
use emp_rows::system::RowSystem;
use emp_step::outcome::{Outcome, StepFault};
use emp_walk::kept::Steps;
use emp_walk::search::search_by;
use std::alloc::Global;
use std::test::Fail;

// The steps of the layer below, and how many pivots they made: each takes one unit.
#[derive(Drop)]
struct Counted {
    pivots: u64,
}

impl Counted {
    fn count(&mut self, before: u64, after: u64) {
        self.pivots = self.pivots.saturating_add(after.saturating_sub(before));
    }
}

impl Steps for Counted {
    fn raise(
        &mut self,
        dict: &mut Dict,
        k: u32,
        budget: &mut Budget,
    ) -> Result<Outcome, StepFault> {
        let before = budget.used;
        let outcome = steps::raise(dict, k, budget);
        self.count(before, budget.used);
        outcome
    }

    fn fix(&mut self, dict: &mut Dict, k: u32, budget: &mut Budget) -> Result<Outcome, StepFault> {
        let before = budget.used;
        let outcome = steps::fix(dict, k, budget);
        self.count(before, budget.used);
        outcome
    }

    fn best(&mut self, dict: &mut Dict, budget: &mut Budget) -> Result<Outcome, StepFault> {
        let before = budget.used;
        let outcome = steps::best(dict, budget);
        self.count(before, budget.used);
        outcome
    }
}

// The pivots that the steps of a search made, its work and its nodes.
fn pivots_of(alloc: Global, system: &RowSystem) -> Result<(u64, u64, u64), Fail> {
    let mut steps = Counted { pivots: 0 };
    match search_by(&mut steps, alloc, system, 100) {
        Ok(answer) => Ok((steps.pivots, answer.work, answer.nodes)),
        Err(_) => Err(Fail::new("no answer")),
    }
}

// Both children go on from the dictionary that the root ended with: a search that makes the root's pivot again for the second one makes three.
#[test]
fn counts_pivots(rt: HostRuntime) -> Result<(), Fail> {
    let none = paired(rt.alloc(), 1)?;
    assert_eq!(rt; pivots_of(rt.alloc(), &none)?, (2, 5, 3));
    let falling = falling(rt.alloc())?;
    assert_eq!(rt; pivots_of(rt.alloc(), &falling)?, (1, 2, 1));
    Ok(())
}
