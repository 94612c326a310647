//! A problem whose agents are known to be convex in the place of the problem.
use crate::left::{ConvexPoint, ConvexProblem, LeftPoint, LeftProblem};
use emp_reform::fault::BackFault;
use emp_reform::reform::Reform;
use std::alloc::Global;

/// The same problem before and after the test of its agents. The way back changes no number.
#[derive(Drop)]
pub struct Share<'a> {
    pub source: LeftProblem<'a>,
    pub target: ConvexProblem<'a>,
}

impl<'a> Reform for Share<'a> {
    ghost use Rattle.std.specs.Prelude.{◌≡◌, None, Ok};
    ghost use Rattle.std.proofs.Common.{subst, sym};
    ghost use Rattle.emp_num.proofs.SamePoints.{same_itself};
    ghost use Rattle.emp_share.specs.Share.{ShareGives};
    ghost use Rattle.emp_layers.specs.Layers.{FitsProblem, SolvesProblem, IsBetterOfProblem};
    ghost use Rattle.emp_layers.proofs.Files.{same_order};

    type Src = LeftProblem<'a>;

    type Dst = ConvexProblem<'a>;

    ghost source = { λ s. s.source };

    ghost target_of = { λ s. s.target };

    ghost image = { λ s p. p };

    ghost wide = { λ s p. None };

    ghost whole = { λ s. (s.target.problem.now ≡ s.source.problem.now) × ShareGives s.target.problem.now (Ok tt) };

    ghost keeps = { λ s p w h. subst (λ pr. FitsProblem pr p) w.0 h };

    ghost sound = { λ s p w h. subst (λ pr. SolvesProblem pr p) w.0 h };

    ghost order = { λ s p q w h k. same_order s.target.problem.now s.source.problem.now p q w.0 };

    ghost same = { λ s p q w h k e. e };

    ghost lifts = { λ s q w h. (q, subst (λ pr. SolvesProblem pr q) (sym w.0) h, same_itself q) };

    fn target(&self) -> &ConvexProblem<'a> {
        &self.target
    }

    fn back(&self, alloc: Global, point: &ConvexPoint) -> Result<LeftPoint, BackFault> {
        let values = point.values.copy(alloc)?;
        Ok(LeftPoint { values })
    }
}
