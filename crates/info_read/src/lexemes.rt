//! From tokens to lexemes.
ghost use Rattle.std.specs.Prelude.{◌≡◌, ◌<◌, None, IfOk, length, slice_range};
ghost use Rattle.emp_lex.specs.Words.{of_words};
ghost use Rattle.info_read.specs.Lexemes.{keywords, keyword, IsNoun, IsSort, IsLexeme, AreLexemes};

use crate::lexeme::{Lexeme, Sort};
use emp_ast::model::{Model, Sense};
use emp_lex::token::{Token, TokenKind, part};
use emp_lex::word::of_words;
use std::alloc::{AllocError, Global};

/// The keyword that a name is, if it is one.
fn keyword(alloc: Global, name: &[u8]) -> Result<Option<Sort>, AllocError>
    ensures { IfOk result (λ s. s ≡ keyword name.now) }
{
    let lower = name.to_ascii_lowercase(alloc)?;
    Ok(of_words(
        None,
        &[
            (b"equilibrium", Some(Sort::Equilibrium)),
            (b"bilevel", Some(Sort::Bilevel)),
            (b"min", Some(Sort::Agent(Sense::Min))),
            (b"max", Some(Sort::Agent(Sense::Max))),
            (b"vi", Some(Sort::Vi)),
            (b"dualvar", Some(Sort::Dualvar)),
            (b"visol", Some(Sort::Visol)),
            (b"implicit", Some(Sort::Implicit)),
            (b"disjunction", Some(Sort::Reserved)),
            (b"randvar", Some(Sort::Reserved)),
            (b"stage", Some(Sort::Reserved)),
        ],
        lower.as_slice(),
    ))
}

/// What a name is that is no keyword.
#[tactic(auto, using(crate::proofs::Nouns::nouns))]
fn noun(model: &Model, name: &[u8]) -> Sort
    requires variables { length model.now.variables < 4294967296 }
    requires equations { length model.now.equations < 4294967296 }
    ensures { IsNoun model.now name.now result }
{
    if let Some(variable) = model.find_var(name) {
        return Sort::Variable(variable);
    }
    match model.find_equ(name) {
        Some(equation) => Sort::Equation(equation),
        None => Sort::Unknown,
    }
}

/// The sort of a token of these bytes.
fn sort_of(alloc: Global, model: &Model, kind: TokenKind, bytes: &[u8]) -> Result<Sort, AllocError>
    requires variables { length model.now.variables < 4294967296 }
    requires equations { length model.now.equations < 4294967296 }
    ensures { IfOk result (IsSort model.now kind bytes.now) }
{
    match kind {
        TokenKind::Name => match keyword(alloc, bytes)? {
            Some(sort) => Ok(sort),
            None => Ok(noun(model, bytes)),
        },
        _ => Ok(Sort::Mark),
    }
}

/// A token of a text as a lexeme.
fn lexeme(alloc: Global, text: &[u8], model: &Model, token: Token) -> Result<Lexeme, AllocError>
    requires variables { length model.now.variables < 4294967296 }
    requires equations { length model.now.equations < 4294967296 }
    ensures { IfOk result (IsLexeme text.now model.now token) }
{
    let sort = sort_of(alloc, model, token.kind, part(text, token.from, token.to))?;
    Ok(Lexeme {
        sort,
        place: token.place,
    })
}

/// The tokens of a text as lexemes.
#[tactic(auto, using(crate::proofs::Lexing::collecting))]
pub fn lexemes(
    alloc: Global,
    text: &[u8],
    model: &Model,
    tokens: &[Token],
) -> Result<Vec<Lexeme>, AllocError>
    requires variables { length model.now.variables < 4294967296 }
    requires equations { length model.now.equations < 4294967296 }
    ensures { IfOk result (λ v. AreLexemes text.now model.now tokens.now v.items) }
{
    let mut found = Vec::new(alloc);
    for token in tokens {
        found.push(lexeme(alloc, text, model, *token)?)?;
    }
    Ok(found)
}
