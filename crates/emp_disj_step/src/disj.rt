//! The rows of a model's disjunctions in their place.
use emp_ast::annot::Annot;
use emp_ast::model::Model;
use emp_ast::tree::EquId;
use emp_chain::file::FilePoint;
use emp_chain::rows::RowProblem;
use emp_list::seq::Seq;
use emp_owner::owned::Owned;
use emp_problem::problem::AgentProblem;
use emp_reform::fault::BackFault;
use emp_reform::problem::Problem;
use emp_reform::reform::Reform;
use emp_rows::point::RowPoint;
use emp_subst::fault::FillFault;
use emp_subst::fill::fill;
use std::alloc::Global;

/// A model and its disjunctions. It is solved by a point that is admissible for these; a point is better by the solve
/// objective.
#[derive(Clone, Copy)]
pub struct DisjProblem<'a> {
    pub model: &'a Model,
    pub disjunctions: &'a Seq<Seq<EquId>>,
}

impl<'a> Problem for DisjProblem<'a> {
    ghost use Rattle.emp_num.specs.Point.{StandsFor};
    ghost use Rattle.emp_ast.specs.Rivals.{Fits};
    ghost use Rattle.emp_disj.specs.Choice.{IsChoice, IsBetterChoice};

    type Point = FilePoint;

    ghost stands = { λ x p. StandsFor x.values p };

    ghost fits = { λ s p. Fits s.model.now p };

    ghost solves = { λ s p. IsChoice s.model.now s.disjunctions.now p };

    ghost better = { λ s p q. IsBetterChoice s.model.now p q };

    ghost solving_fits = { λ s p h. h.fits };
}

/// A model with disjunctions and its rows, by the annotation that sets the terms apart, the owners and definitions that are
/// settled for it, and the problem of the variables that are left.
#[derive(Drop)]
pub struct Disj<'a> {
    pub source: DisjProblem<'a>,
    pub annot: &'a Annot,
    pub owned: &'a Owned,
    pub problem: &'a AgentProblem,
    pub target: RowProblem<'a>,
}

impl<'a> Reform for Disj<'a> {
    ghost use Rattle.std.specs.Prelude.{length};
    ghost use Rattle.emp_split.proofs.Reforms.{front};
    ghost use Rattle.emp_layers.proofs.Wides.{wide_at};
    ghost use Rattle.emp_disj.specs.Laws.{disj_image};
    ghost use Rattle.emp_disj_step.specs.Member.{IsMember};
    ghost use Rattle.emp_disj.proofs.Reforms.{disj_keeps_fit, disj_images_are_same, disj_is_sound, disj_keeps_order, disj_lifts};

    type Src = DisjProblem<'a>;

    type Dst = RowProblem<'a>;

    ghost source = { λ s. s.source };

    ghost target_of = { λ s. s.target };

    ghost image = { λ s p. disj_image s.source.model.now s.source.disjunctions.now s.problem.now p };

    ghost wide = { λ s p. wide_at s.source.model.now s.annot.now s.problem.now (front (length s.problem.now.variables) p) };

    ghost whole = { λ s. IsMember s.source.model.now s.source.disjunctions.now s.annot.now s.owned.now s.problem.now s.target.system.now };

    ghost keeps = { λ s p w h. disj_keeps_fit s.source.model.now s.source.disjunctions.now s.problem.now w.wide w.parts s.target.system.now p w.disj h };

    ghost sound = { λ s p w h. disj_is_sound s.source.model.now s.source.disjunctions.now s.problem.now w.wide w.parts s.target.system.now p w.disj h };

    ghost order = { λ s p q w h k. disj_keeps_order s.source.model.now s.source.disjunctions.now s.problem.now w.wide w.parts s.target.system.now p q w.disj h k };

    ghost same = { λ s p q w h k e. disj_images_are_same s.source.model.now s.source.disjunctions.now s.problem.now w.wide w.parts s.target.system.now p q w.disj h k e };

    ghost lifts = { λ s q w h. disj_lifts s.source.model.now s.source.disjunctions.now s.problem.now w.wide w.parts s.target.system.now q w.disj h };

    fn target(&self) -> &RowProblem<'a> {
        &self.target
    }

    fn back(&self, alloc: Global, point: &RowPoint) -> Result<FilePoint, BackFault> {
        let problem = self.problem;
        let count = problem.variables.len();
        let values = &point.as_slice()[..count];
        match fill(
            alloc,
            self.source.model,
            self.annot,
            self.owned,
            problem,
            values,
        ) {
            Ok(values) => Ok(FilePoint { values }),
            Err(FillFault::Wide(v)) => Err(BackFault::Wide(v.at)),
            Err(FillFault::NoMemory) => Err(BackFault::NoMemory),
        }
    }
}
