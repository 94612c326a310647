//! The nesting of parentheses.
ghost use Rattle.std.specs.Prelude.{◌≡◌, ◌≤◌};
ghost use Rattle.gms_grammar.specs.Nesting.{level_behind, too_deep};

use crate::lexeme::{Lexeme, Sort};
use emp_ast::tree::Place;

/// The levels that may be open at once.
const MOST_LEVELS: u32 = 64;

/// The levels open behind a lexeme.
fn level_behind(level: u32, sort: Sort) -> u32
    requires { level ≤ 64 }
    ensures { result ≡ level_behind level sort }
{
    match sort {
        Sort::Open => level + 1,
        Sort::Close => level.saturating_sub(1),
        _ => level,
    }
}

/// The place of the first `(` that opens a 65th level.
#[tactic(auto, using(crate::proofs::Levels::levelling))]
pub fn too_deep(lexemes: &[Lexeme]) -> Option<Place>
    ensures { result ≡ too_deep lexemes.now }
{
    let mut level = 0;
    for lexeme in lexemes {
        level = level_behind(level, lexeme.sort);
        if level > MOST_LEVELS {
            return Some(lexeme.place);
        }
    }
    None
}
