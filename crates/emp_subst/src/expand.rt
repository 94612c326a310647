//! The differences of the equations.
ghost use Rattle.std.specs.Prelude.{◌≡◌, ◌⊎◌, Err, MatchResult};
ghost use Rattle.emp_form.specs.Expansion.{form};
ghost use Rattle.emp_poly.specs.Quads.{HasForm};
ghost use Rattle.emp_poly.specs.Trees.{FromTreeGives};
ghost use Rattle.emp_agents.specs.Given.{difference as difference_of};
ghost use Rattle.emp_subst.specs.Subst.{IsExpanded};
ghost use Rattle.emp_subst.specs.Stages.{DifferencesGive};

use emp_ast::model::{Equation, Model};
use emp_list::seq::Seq;
use emp_poly::difference::difference;
use emp_poly::quad::Quad;
use emp_poly::tree::{PolyFault, from_tree};
use std::alloc::Global;

/// Left minus right of one equation, or the first fault of its trees, left before right.
fn one_difference(alloc: Global, equation: &Equation) -> Result<Quad, PolyFault>
    ensures { MatchResult result (λ d. IsExpanded equation.now.left × IsExpanded equation.now.right × HasForm d (form (difference_of equation.now))) (λ f. FromTreeGives equation.now.left (Err f) ⊎ (IsExpanded equation.now.left × FromTreeGives equation.now.right (Err f))) }
{
    let left = from_tree(alloc, &equation.left)?;
    let right = from_tree(alloc, &equation.right)?;
    let Ok(quad) = difference(alloc, &left, &right) else {
        return Err(PolyFault::NoMemory);
    };
    Ok(quad)
}

/// Left minus right of each equation, in order of declaration, or the first fault of a tree in that order, left before right.
pub fn differences(alloc: Global, model: &Model) -> Result<Seq<Quad>, PolyFault>
    ensures { DifferencesGive model.now result }
{
    let mut list = Seq::new(alloc);
    for at in 0..model.equations.len() {
        let quad = one_difference(alloc, model.equations.get(at))?;
        let Ok(()) = list.push(quad) else {
            return Err(PolyFault::NoMemory);
        };
    }
    Ok(list)
}
