//! Who owns each variable of a model under an annotation, and which equations define objectives.
//!
//! `settle` tries the twelve rules of ownership in their order. Each stands in `specs/Rules.antt` as a test of one variable
//! or equation, and what the answer means in `specs/Settled.antt`.
#![tactic(auto)]

pub mod blocks;
pub mod constraints;
mod definitions;
mod leaves;
pub mod listed;
pub mod owned;
mod owners;
mod rules;
mod search;
pub mod settle;
pub mod tied;
