//! From lexemes to an annotation.
ghost use Rattle.std.specs.Prelude.{◌≡◌, ◌⊎◌, MatchResult};
ghost use Rattle.info_read.specs.Grammar.{Stands};
ghost use Rattle.info_read.specs.Steps.{RefusesLexemes};

use crate::draft::Draft;
use crate::fault::InfoFault;
use crate::lexeme::Lexeme;
use crate::moves::fault_at;
use emp_ast::annot::Annot;
use emp_ast::tree::Place;
use std::alloc::Global;

/// The annotation for which the lexemes stand, or their first fault; `end` is the place behind the text.
pub fn parse(alloc: Global, lexemes: &[Lexeme], end: Place) -> Result<Annot, InfoFault>
    ensures { MatchResult result (Stands lexemes.now) (RefusesLexemes lexemes.now end) }
{
    let mut draft = Draft::new(alloc);
    for t in lexemes {
        if !draft.advance(alloc, t.sort)? {
            return Err(fault_at(draft.stage, *t));
        }
    }
    match draft.finish(alloc)? {
        Some(annot) => Ok(annot),
        None => Err(InfoFault::Syntax(end)),
    }
}
