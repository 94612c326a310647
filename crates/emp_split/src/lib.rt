//! Games of several players and a leader in whole numbers, and the numbers that are their multipliers.
//!
//! The crate has no code that runs. The functions of `laws` state what the layers above cite.
#![tactic(auto)]

pub mod laws;
