//! The problem of the variables that are left in the place of a file.
use crate::file::{FilePoint, FileProblem};
use crate::left::{LeftPoint, LeftProblem};
use emp_reform::fault::BackFault;
use emp_reform::reform::Reform;
use emp_subst::fault::FillFault;
use emp_subst::fill::fill;
use std::alloc::Global;

/// A file and its problem. On the way back a variable that is left has the coordinate of the point, and a defined objective what
/// its definition gives.
#[derive(Drop)]
pub struct Subst<'a> {
    pub source: FileProblem<'a>,
    pub target: LeftProblem<'a>,
}

impl<'a> Reform for Subst<'a> {
    ghost use Rattle.emp_layers.specs.Image.{image as file_image};
    ghost use Rattle.emp_layers.proofs.Wides.{wide_at};
    ghost use Rattle.emp_layers.proofs.Files.{image_is_file, images_are_same, problem_is_sound, problem_keeps_order, problem_lifts};
    ghost use Rattle.emp_chain.specs.Members.{IsSubst};

    type Src = FileProblem<'a>;

    type Dst = LeftProblem<'a>;

    ghost source = { λ s. s.source };

    ghost target_of = { λ s. s.target };

    ghost image = { λ s p. file_image s.source.model.now s.source.annot.now s.target.problem.now p };

    ghost wide = { λ s p. wide_at s.source.model.now s.source.annot.now s.target.problem.now p };

    ghost whole = { λ s. IsSubst s.source.model.now s.source.annot.now s.source.owned.now s.target.problem.now };

    ghost keeps = { λ s p w h. (image_is_file s.source.model.now s.source.annot.now s.target.problem.now p w.files h).fits };

    ghost sound = { λ s p w h. problem_is_sound s.source.model.now s.source.annot.now s.target.problem.now p w.files h };

    ghost order = { λ s p q w h k. problem_keeps_order s.source.model.now s.source.annot.now s.target.problem.now p q w.files h k };

    ghost same = { λ s p q w h k e. images_are_same s.source.model.now s.source.annot.now s.target.problem.now p q w.files h k e };

    ghost lifts = { λ s q w h. problem_lifts s.source.model.now s.source.annot.now s.target.problem.now q w.files h };

    fn target(&self) -> &LeftProblem<'a> {
        &self.target
    }

    fn back(&self, alloc: Global, point: &LeftPoint) -> Result<FilePoint, BackFault> {
        let file = self.source;
        let problem = self.target.problem;
        let values = point.values.as_slice();
        match fill(alloc, file.model, file.annot, file.owned, problem, values) {
            Ok(values) => Ok(FilePoint { values }),
            Err(FillFault::Wide(v)) => Err(BackFault::Wide(v.at)),
            Err(FillFault::NoMemory) => Err(BackFault::NoMemory),
        }
    }
}
