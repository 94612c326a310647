//! From a text to its annotation.
ghost use Rattle.std.specs.Prelude.{◌<◌, length, MatchResult};
ghost use Rattle.info_read.specs.Texts.{IsInfoText, RefusesInfo};

use crate::fault::InfoFault;
use crate::lexemes::lexemes;
use crate::parse::parse;
use emp_ast::annot::Annot;
use emp_ast::model::Model;
use emp_lex::lexer::{end_of, tokens};
use std::alloc::Global;

/// The annotation of the model for which the text stands, or the first fault of a text that stands for none, as
/// `specs/Texts.antt` defines both.
pub fn read_info(alloc: Global, text: &[u8], model: &Model) -> Result<Annot, InfoFault>
    requires text { length text.now < 4294967295 }
    requires variables { length model.now.variables < 4294967296 }
    requires equations { length model.now.equations < 4294967296 }
    ensures { MatchResult result (IsInfoText text.now model.now) (RefusesInfo text.now model.now) }
{
    let tokens = tokens(alloc, text)?;
    let lexemes = lexemes(alloc, text, model, tokens.as_slice())?;
    parse(alloc, lexemes.as_slice(), end_of(text))
}
