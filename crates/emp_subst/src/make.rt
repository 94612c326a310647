//! The problem of a file.
ghost use Rattle.std.specs.Prelude.{◌<◌, length};
ghost use Rattle.emp_owner.specs.Settled.{IsKept, AreOwned};
ghost use Rattle.emp_problem.specs.Class.{AnnotFits, GoalFits};
ghost use Rattle.emp_subst.specs.Subst.{SubstGives};

use crate::expand::differences;
use crate::fault::SubstFault;
use crate::lefts::left_variables;
use crate::parts::{block_parts, leader_part};
use crate::quadratic::first_quadratic;
use emp_ast::annot::Annot;
use emp_ast::model::Model;
use emp_owner::owned::Owned;
use emp_problem::problem::AgentProblem;
use std::alloc::Global;

/// The problem of the variables that are left, where no rule of ownership is broken and the owners and definitions are those
/// that `settle` gives.
///
/// First all equations are expanded in order of declaration, left before right: `Poly` has the first fault. Then the first
/// equation that is a constraint or a function and has a quadratic coefficient is refused, and then a leader's objective that
/// has one.
pub fn make(
    alloc: Global,
    model: &Model,
    annot: &Annot,
    owned: &Owned,
) -> Result<AgentProblem, SubstFault>
    requires variables { length model.now.variables < 4294967296 }
    requires equations { length model.now.equations < 4294967296 }
    requires kept { IsKept model.now annot.now }
    requires owned { AreOwned model.now annot.now owned.now }
    requires fits { AnnotFits model.now annot.now }
    requires goal { GoalFits model.now }
    ensures { SubstGives model.now annot.now result }
{
    let differences = differences(alloc, model)?;
    if let Some((e, u, v)) = first_quadratic(model, annot, owned, differences.as_slice()) {
        return Err(SubstFault::Quadratic(e, u, v));
    }
    let variables = left_variables(alloc, model, annot, owned)?;
    let leader = leader_part(
        alloc,
        model,
        annot,
        differences.as_slice(),
        owned.leader,
        &variables,
    )?;
    let blocks = block_parts(alloc, model, annot, differences.as_slice(), &owned.defined)?;
    let duals = annot.duals.copy(alloc)?;
    let visols = annot.visols.copy(alloc)?;
    Ok(AgentProblem {
        variables,
        leader,
        blocks,
        duals,
        visols,
    })
}
