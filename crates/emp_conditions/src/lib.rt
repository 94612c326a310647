//! The rows of a game of several players over its base variables, and that they are the game with its multipliers.
//!
//! The crate has no code that runs. The functions of `laws` state what the layers above cite.
#![tactic(auto)]

pub mod laws;
