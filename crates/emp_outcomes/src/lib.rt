//! What is answered over a model and an annotation of it that were read: refusals of ownership, class, convexity and rows, the
//! search and its report, and certificates that are tested and stored.
//!
//! `solve`, `check` and `migrate` need no reader of texts; `specs/Outcomes.antt` has the words of their contracts.
#![tactic(auto)]

pub mod certificates;
pub mod reports;
pub mod said;
pub mod solve;
pub mod stated;
