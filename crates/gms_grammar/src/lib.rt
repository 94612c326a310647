//! From model texts to the items of their statements.
//!
//! What each token is to the grammar stands in `specs/Lexemes.antt`, the grammar in `specs/Grammar.antt`, and where lexemes
//! stop beginning a grammatical text in `specs/Syntax.antt`.
#![tactic(auto)]

pub mod fault;
pub mod item;
pub mod kind;
pub mod lexeme;
pub mod lexemes;
pub mod limit;
pub mod moves;
pub mod nesting;
pub mod parse;
pub mod symbol;
