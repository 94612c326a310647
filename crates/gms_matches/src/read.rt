//! From a text of matches to its model and its matches.
ghost use Rattle.std.specs.Prelude.{◌<◌, length, MatchResult};
ghost use Rattle.gms_grammar.specs.declared.kind.Kind.TheVariants.{Matches};
ghost use Rattle.gms_read.specs.Texts.{RefusesModelOf};
ghost use Rattle.gms_matches.specs.Texts.{IsMatchedText};

use crate::shown::shown;
use emp_ast::model::Model;
use emp_ast::tree::{EquId, VarId};
use emp_list::seq::Seq;
use gms_grammar::fault::ModelFault;
use gms_grammar::kind::Kind;
use gms_read::finish::finish;
use gms_read::read::{Drafted, read_draft};
use std::alloc::Global;

/// A model and its matches in text order.
#[derive(Drop)]
pub struct Matched {
    pub model: Model,
    pub matches: Seq<(EquId, VarId)>,
}

/// The model and the matches for which a text of matches stands, or the first fault of a text that stands for none.
pub fn read_matches(alloc: Global, text: &[u8]) -> Result<Matched, ModelFault>
    requires { length text.now < 4294967295 }
    ensures { MatchResult result (λ r. IsMatchedText text.now r.model r.matches) (RefusesModelOf Matches text.now) }
{
    let Drafted { items, draft } = read_draft(alloc, Kind::Matches, text)?;
    let matches = shown(alloc, text, &draft, items.as_slice())?;
    let model = finish(alloc, draft)?;
    Ok(Matched { model, matches })
}
