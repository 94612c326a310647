//! A file as a problem.
use emp_ast::annot::Annot;
use emp_ast::model::Model;
use emp_list::seq::Seq;
use emp_num::frac::Frac;
use emp_owner::owned::Owned;
use emp_reform::problem::Problem;

/// A model, its annotation, and the owners and definitions that are settled for them. It is solved by an equilibrium, or in a
/// bilevel file by an admissible point; a point is better by the leader's objective.
#[derive(Clone, Copy)]
pub struct FileProblem<'a> {
    pub model: &'a Model,
    pub annot: &'a Annot,
    pub owned: &'a Owned,
}

/// A value for each variable of the model, in order of declaration.
#[derive(Drop)]
pub struct FilePoint {
    pub values: Seq<Frac>,
}

impl<'a> Problem for FileProblem<'a> {
    ghost use Rattle.emp_num.specs.Point.{StandsFor};
    ghost use Rattle.emp_ast.specs.Rivals.{Fits};
    ghost use Rattle.emp_problem.specs.Class.{SolvesFile};
    ghost use Rattle.emp_layers.specs.Layers.{IsBetterOfFile};
    ghost use Rattle.emp_layers.proofs.Files.{solving_fits as file_fits};

    type Point = FilePoint;

    ghost stands = { λ x p. StandsFor x.values p };

    ghost fits = { λ s p. Fits s.model.now p };

    ghost solves = { λ s p. SolvesFile s.model.now s.annot.now p };

    ghost better = { λ s p q. IsBetterOfFile s.model.now s.annot.now p q };

    ghost solving_fits = { λ s p h. file_fits s.model.now s.annot.now p h };
}
