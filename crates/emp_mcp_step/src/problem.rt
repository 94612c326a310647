//! A complementarity model as a problem.
use emp_ast::model::Model;
use emp_ast::tree::{EquId, VarId};
use emp_list::seq::Seq;
use emp_num::frac::Frac;
use emp_reform::problem::Problem;

/// A model with its matches. It is solved by the complementary points; none is better than another.
#[derive(Clone, Copy)]
pub struct McpProblem<'a> {
    pub model: &'a Model,
    pub matches: &'a Seq<(EquId, VarId)>,
}

/// A value for each variable of the problem, in order of declaration.
#[derive(Drop)]
pub struct McpPoint {
    pub values: Seq<Frac>,
}

impl<'a> Problem for McpProblem<'a> {
    ghost use Rattle.emp_num.specs.Point.{StandsFor};
    ghost use Rattle.emp_mcp.specs.Members.{FitsMcp, SolvesMcp};

    type Point = McpPoint;

    ghost stands = { λ x p. StandsFor x.values p };

    ghost fits = { λ s p. FitsMcp s.model.now s.matches.now p };

    ghost solves = { λ s p. SolvesMcp s.model.now s.matches.now p };

    ghost better = { λ s p q. ⊥ };

    ghost solving_fits = { λ s p h. h.fits };
}
