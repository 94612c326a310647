//! From a text to its model.
ghost use Rattle.std.specs.Prelude.{◌<◌, length, MatchResult};
ghost use Rattle.gms_read.specs.Steps.{HasDraft};
ghost use Rattle.gms_read.specs.Texts.{RefusesModelOf, IsModelText, RefusesModel};

use crate::draft::Draft;
use crate::finish::finish;
use crate::perform::perform;
use emp_ast::model::Model;
use emp_lex::lexer::{end_of, tokens};
use gms_grammar::fault::ModelFault;
use gms_grammar::item::Item;
use gms_grammar::kind::Kind;
use gms_grammar::lexemes::lexemes;
use gms_grammar::nesting::too_deep;
use gms_grammar::parse::parse;
use std::alloc::Global;

/// The items of a text and the draft that they give.
#[derive(Drop)]
pub struct Drafted {
    pub items: Vec<Item>,
    pub draft: Draft,
}

/// What the statements of a text of the kind declare, define and set, or the first fault that a token, the grammar or a rule of
/// a statement finds.
pub fn read_draft(alloc: Global, kind: Kind, text: &[u8]) -> Result<Drafted, ModelFault>
    requires { length text.now < 4294967295 }
    ensures { MatchResult result (λ r. HasDraft kind text.now r.items.items r.draft) (RefusesModelOf kind text.now) }
{
    let tokens = tokens(alloc, text)?;
    let lexemes = lexemes(alloc, text, tokens.as_slice())?;
    if let Some(place) = too_deep(lexemes.as_slice()) {
        return Err(ModelFault::TooLarge(place));
    }
    let items = parse(alloc, kind, lexemes.as_slice(), end_of(text))?;
    let draft = perform(alloc, text, items.as_slice())?;
    Ok(Drafted { items, draft })
}

/// The model for which the text stands, or the first fault of a text that stands for none, as `specs/Texts.antt`
/// defines both.
pub fn read_model(alloc: Global, text: &[u8]) -> Result<Model, ModelFault>
    requires { length text.now < 4294967295 }
    ensures { MatchResult result (IsModelText text.now) (RefusesModel text.now) }
{
    let drafted = read_draft(alloc, Kind::Agents, text)?;
    finish(alloc, drafted.draft)
}
