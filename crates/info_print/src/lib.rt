//! Prints annotations as canonical texts.
//!
//! What the canonical text of an annotation is stands in `specs/Canonical.antt`. It stands for the same annotation.
#![tactic(auto)]

pub mod lines;
pub mod names;
pub mod print;
