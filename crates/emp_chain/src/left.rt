//! What is left of a file as a problem: before and after its agents are known to be convex.
use emp_list::seq::Seq;
use emp_num::frac::Frac;
use emp_problem::problem::AgentProblem;
use emp_reform::problem::Problem;

/// The problem of the variables that are left. It is solved by what solves its game, over each number that makes all coefficients
/// whole, and a point is better by the leader of this game.
#[derive(Clone, Copy)]
pub struct LeftProblem<'a> {
    pub problem: &'a AgentProblem,
}

/// A value for each variable that is left, in order of declaration.
#[derive(Drop)]
pub struct LeftPoint {
    pub values: Seq<Frac>,
}

impl<'a> Problem for LeftProblem<'a> {
    ghost use Rattle.emp_num.specs.Point.{StandsFor};
    ghost use Rattle.emp_layers.specs.Layers.{FitsProblem, SolvesProblem, IsBetterOfProblem};

    type Point = LeftPoint;

    ghost stands = { λ x p. StandsFor x.values p };

    ghost fits = { λ s p. FitsProblem s.problem.now p };

    ghost solves = { λ s p. SolvesProblem s.problem.now p };

    ghost better = { λ s p q. IsBetterOfProblem s.problem.now p q };

    ghost solving_fits = { λ s p h. h.fits };
}

/// The same problem, whose agents are known to be convex.
#[derive(Clone, Copy)]
pub struct ConvexProblem<'a> {
    pub problem: &'a AgentProblem,
}

/// A value for each variable that is left, in order of declaration, of a problem with convex agents.
#[derive(Drop)]
pub struct ConvexPoint {
    pub values: Seq<Frac>,
}

impl<'a> Problem for ConvexProblem<'a> {
    ghost use Rattle.emp_num.specs.Point.{StandsFor};
    ghost use Rattle.emp_layers.specs.Layers.{FitsProblem, SolvesProblem, IsBetterOfProblem};

    type Point = ConvexPoint;

    ghost stands = { λ x p. StandsFor x.values p };

    ghost fits = { λ s p. FitsProblem s.problem.now p };

    ghost solves = { λ s p. SolvesProblem s.problem.now p };

    ghost better = { λ s p q. IsBetterOfProblem s.problem.now p q };

    ghost solving_fits = { λ s p h. h.fits };
}
