//! The file in the place of a complementarity model.
use crate::problem::{McpPoint, McpProblem};
use emp_chain::file::{FilePoint, FileProblem};
use emp_reform::fault::BackFault;
use emp_reform::reform::Reform;
use std::alloc::Global;

/// A complementarity model and its file. The way back changes no number.
#[derive(Drop)]
pub struct Mcp<'a> {
    pub source: McpProblem<'a>,
    pub target: FileProblem<'a>,
}

impl<'a> Reform for Mcp<'a> {
    ghost use Rattle.std.specs.Prelude.{None};
    ghost use Rattle.std.proofs.Common.{subst, sym};
    ghost use Rattle.emp_ast.specs.Equilibrium.{IsEquilibrium};
    ghost use Rattle.emp_problem.specs.Class.{SolvesFile};
    ghost use Rattle.emp_layers.specs.Layers.{IsBetterOfFile};
    ghost use Rattle.emp_mcp.specs.Members.{IsMcp};
    ghost use Rattle.emp_mcp.proofs.Members.{keeps as keeps_fit, sound as is_sound, lifts as does_lift};

    type Src = McpProblem<'a>;

    type Dst = FileProblem<'a>;

    ghost source = { λ s. s.source };

    ghost target_of = { λ s. s.target };

    ghost image = { λ s p. p };

    ghost wide = { λ s p. None };

    ghost whole = { λ s. IsMcp s.source.model.now s.source.matches.now s.target.model.now s.target.annot.now };

    ghost keeps = { λ s p w h. keeps_fit s.source.model.now s.source.matches.now s.target.model.now s.target.annot.now p w h };

    ghost sound = { λ s p w h. is_sound s.source.model.now s.source.matches.now s.target.model.now s.target.annot.now p w (subst (λ a. SolvesFile s.target.model.now a p → IsEquilibrium s.target.model.now a p) (sym w.annot) (λ e. e) h) };

    ghost order = { λ s p q w h k. (subst (λ a. IsBetterOfFile s.target.model.now a p q → ⊥) (sym w.annot) (λ x. x), λ x. absurd x) };

    ghost same = { λ s p q w h k e. e };

    ghost lifts = { λ s q w h. let l = does_lift s.source.model.now s.source.matches.now s.target.model.now s.target.annot.now q w h in (l.0, subst (λ a. IsEquilibrium s.target.model.now a l.0 → SolvesFile s.target.model.now a l.0) (sym w.annot) (λ e. e) l.1, l.2) };

    fn target(&self) -> &FileProblem<'a> {
        &self.target
    }

    fn back(&self, alloc: Global, point: &FilePoint) -> Result<McpPoint, BackFault> {
        let values = point.values.copy(alloc)?;
        Ok(McpPoint { values })
    }
}
