//! A file is the game of the variables that are left: what solves the one solves the other.
//!
//! The crate has no code that runs. The functions of `laws` state what the layers above cite.
#![tactic(auto)]

pub mod laws;
