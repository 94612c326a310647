//! From tokens to lexemes.
ghost use Rattle.std.specs.Prelude.{◌≡◌, true, Err, IfOk, slice_range};
ghost use Rattle.emp_numeral.specs.declared.numeral.NumeralFault.TheVariants.{Wide};
ghost use Rattle.emp_numeral.specs.Numeral.{NumeralGives, numeral_form};
ghost use Rattle.emp_lex.specs.declared.token.TokenKind.TheVariants.{Numeral as NumeralToken};
ghost use Rattle.emp_lex.specs.Forms.{HasForm};
ghost use Rattle.emp_lex.specs.Tokens.{IsTokenList, IsTooWide};
ghost use Rattle.gms_grammar.specs.declared.lexeme.Word.TheVariants.{Other};
ghost use Rattle.emp_lex.specs.Words.{of_words};
ghost use Rattle.gms_grammar.specs.Lexemes.{IsSort, IsLexeme, AreLexemes, words, word_sort, relation_of, symbol_sort};

use crate::lexeme::{Domain, Lexeme, Scale, Sign, Sort, Word};
use emp_ast::model::Relation;
use emp_lex::token::{Token, TokenKind, part};
use emp_lex::word::of_words;
use emp_numeral::numeral::read_numeral;
use std::alloc::{AllocError, Global};

/// The word that a name in lower case is.
fn word_of(name: &[u8]) -> Word
    ensures { result ≡ of_words Other words name.now }
{
    of_words(
        Word::Other,
        &[
            (b"all", Word::All),
            (b"using", Word::Using),
            (b"emp", Word::Emp),
            (b"mcp", Word::Mcp),
            (b"minimizing", Word::Minimizing),
            (b"maximizing", Word::Maximizing),
            (b"inf", Word::Infinity),
            (b"sqr", Word::Square),
            (b"power", Word::Power),
            (b"lo", Word::Low),
            (b"up", Word::High),
            (b"fx", Word::Fixed),
            (b"l", Word::Level),
            (b"m", Word::Marginal),
        ],
        name,
    )
}

/// The sort of a name.
fn word_sort(alloc: Global, name: &[u8]) -> Result<Sort, AllocError>
    ensures { IfOk result (λ s. s ≡ word_sort name.now) }
{
    let lower = name.to_ascii_lowercase(alloc)?;
    Ok(of_words(
        Sort::Name(word_of(lower.as_slice())),
        &[
            (b"free", Sort::Domain(Domain::Free)),
            (b"positive", Sort::Domain(Domain::Positive)),
            (b"negative", Sort::Domain(Domain::Negative)),
            (b"binary", Sort::Domain(Domain::Discrete)),
            (b"integer", Sort::Domain(Domain::Discrete)),
            (b"semicont", Sort::Domain(Domain::Discrete)),
            (b"semiint", Sort::Domain(Domain::Discrete)),
            (b"sos1", Sort::Domain(Domain::Discrete)),
            (b"sos2", Sort::Domain(Domain::Discrete)),
            (b"variable", Sort::Variables),
            (b"variables", Sort::Variables),
            (b"equation", Sort::Equations),
            (b"equations", Sort::Equations),
            (b"model", Sort::Model),
            (b"solve", Sort::Solve),
        ],
        lower.as_slice(),
    ))
}

fn relation_of(alloc: Global, bytes: &[u8]) -> Result<Relation, AllocError>
    ensures { IfOk result (λ r. r ≡ relation_of bytes.now) }
{
    let lower = bytes.to_ascii_lowercase(alloc)?;
    Ok(of_words(
        Relation::Nothing,
        &[
            (b"=e=", Relation::Equal),
            (b"=g=", Relation::AtLeast),
            (b"=l=", Relation::AtMost),
        ],
        lower.as_slice(),
    ))
}

fn symbol_sort(bytes: &[u8]) -> Sort
    ensures { result ≡ symbol_sort bytes.now }
{
    of_words(
        Sort::Equals,
        &[
            (b"+", Sort::Sign(Sign::Plus)),
            (b"-", Sort::Sign(Sign::Minus)),
            (b"*", Sort::Scale(Scale::Times)),
            (b"/", Sort::Scale(Scale::Over)),
            (b"**", Sort::Raise),
            (b";", Sort::Semicolon),
            (b",", Sort::Comma),
            (b".", Sort::Dot),
            (b"..", Sort::Dots),
            (b"(", Sort::Open),
            (b")", Sort::Close),
        ],
        bytes,
    )
}

/// The sort of a numeral.
#[tactic(auto, using(crate::proofs::Sorts::reading))]
fn numeral_sort(bytes: &[u8]) -> Sort
    requires formed { numeral_form bytes.now ≡ true }
    requires narrow { NumeralGives bytes.now (Err Wide) → ⊥ }
    ensures { IsSort NumeralToken bytes.now result }
{
    Sort::Numeral(read_numeral(bytes).unwrap())
}

/// The sort of a token of these bytes.
fn sort_of(alloc: Global, kind: TokenKind, bytes: &[u8]) -> Result<Sort, AllocError>
    requires formed { HasForm kind bytes.now }
    requires narrow { IsTooWide kind bytes.now → ⊥ }
    ensures { IfOk result (λ s. IsSort kind bytes.now s) }
{
    match kind {
        TokenKind::Name => word_sort(alloc, bytes),
        TokenKind::Numeral => Ok(numeral_sort(bytes)),
        TokenKind::Text => Ok(Sort::Text),
        TokenKind::Relation => Ok(Sort::Relation(relation_of(alloc, bytes)?)),
        TokenKind::Symbol => Ok(symbol_sort(bytes)),
    }
}

/// A token of a text as a lexeme.
fn lexeme(alloc: Global, text: &[u8], token: Token) -> Result<Lexeme, AllocError>
    requires formed { HasForm token.kind (slice_range text.now token.from token.to) }
    requires narrow { IsTooWide token.kind (slice_range text.now token.from token.to) → ⊥ }
    ensures { IfOk result (λ t. IsLexeme text.now token t) }
{
    let sort = sort_of(alloc, token.kind, part(text, token.from, token.to))?;
    Ok(Lexeme {
        sort,
        from: token.from,
        to: token.to,
        place: token.place,
    })
}

/// The tokens of a text as lexemes.
#[tactic(auto, using(crate::proofs::Sorts::collecting))]
pub fn lexemes(alloc: Global, text: &[u8], tokens: &[Token]) -> Result<Vec<Lexeme>, AllocError>
    requires { IsTokenList text.now tokens.now }
    ensures { IfOk result (λ v. AreLexemes text.now tokens.now v.items) }
{
    let mut found = Vec::new(alloc);
    for token in tokens {
        found.push(lexeme(alloc, text, *token)?)?;
    }
    Ok(found)
}
