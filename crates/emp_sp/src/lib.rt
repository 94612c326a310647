//! Models with random data in two stages: scenarios, plans, and the rows of a scenario.
//!
//! The crate has no code that runs. The functions of `laws` state what is so of outcomes, those of `examples` what the
//! definitions accept and refuse.
#![tactic(auto)]

pub mod annot;
pub mod examples;
pub mod laws;
