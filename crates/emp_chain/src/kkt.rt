//! The rows of a problem with convex agents in its place.
use crate::left::{ConvexPoint, ConvexProblem};
use crate::rows::RowProblem;
use emp_list::seq::Seq;
use emp_reform::fault::BackFault;
use emp_reform::reform::Reform;
use emp_rows::point::RowPoint;
use std::alloc::Global;

/// A problem and its rows. On the way back the first coordinates of a row point are those of the variables that are left.
#[derive(Drop)]
pub struct Kkt<'a> {
    pub source: ConvexProblem<'a>,
    pub target: RowProblem<'a>,
}

impl<'a> Reform for Kkt<'a> {
    ghost use Rattle.std.specs.Prelude.{None, length};
    ghost use Rattle.emp_split.proofs.Reforms.{front, front_same};
    ghost use Rattle.emp_layers.specs.Layers.{IsProblemsSystem};
    ghost use Rattle.emp_layers.proofs.Systems.{rows_fit, rows_are_sound, rows_keep_order, rows_lift};

    type Src = ConvexProblem<'a>;

    type Dst = RowProblem<'a>;

    ghost source = { λ s. s.source };

    ghost target_of = { λ s. s.target };

    ghost image = { λ s p. front (length s.source.problem.now.variables) p };

    ghost wide = { λ s p. None };

    ghost whole = { λ s. IsProblemsSystem s.source.problem.now s.target.system.now };

    ghost keeps = { λ s p w h. rows_fit s.source.problem.now s.target.system.now p w h };

    ghost sound = { λ s p w h. rows_are_sound s.source.problem.now s.target.system.now p w h };

    ghost order = { λ s p q w h k. rows_keep_order s.source.problem.now s.target.system.now p q w h k };

    ghost same = { λ s p q w h k e. front_same (length s.source.problem.now.variables) p q e };

    ghost lifts = { λ s q w h. rows_lift s.source.problem.now s.target.system.now q w h };

    fn target(&self) -> &RowProblem<'a> {
        &self.target
    }

    fn back(&self, alloc: Global, point: &RowPoint) -> Result<ConvexPoint, BackFault> {
        let count = self.source.problem.variables.len();
        let values = Seq::of_slice(alloc, &point.as_slice()[..count])?;
        Ok(ConvexPoint { values })
    }
}
