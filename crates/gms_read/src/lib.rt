//! Reads model texts.
//!
//! Which model a text stands for, and what the first fault of a text that stands for none is, stands in
//! `specs/Texts.antt`, over the grammar (`specs/Grammar.antt` of `gms_grammar`) and the rules (`specs/Rules.antt`).
#![tactic(auto)]

pub mod declare;
pub mod draft;
pub mod finish;
pub mod laws;
pub mod perform;
pub mod progress;
pub mod read;
pub mod roots;
pub mod shape;
pub mod side;
pub mod table;
