//! Reads annotations.
//!
//! Which annotation of a model a text stands for, and what the first fault of a text that stands for none is, stands in
//! `specs/Texts.antt`, over the grammar (`specs/Grammar.antt`) and the faults (`specs/Faults.antt`).
#![tactic(auto)]

pub mod advance;
pub mod draft;
pub mod fault;
pub mod laws;
pub mod lexeme;
pub mod lexemes;
pub mod moves;
pub mod parse;
pub mod read;
pub mod stage;
