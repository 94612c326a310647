//! Disjunctions: a point is admissible where it meets one equation of each.
//!
//! The crate has no code that runs. The functions of `laws` state what a rewriting as rows rests on, those of `examples`
//! what the definitions accept and refuse.
#![tactic(auto)]

pub mod examples;
pub mod laws;
