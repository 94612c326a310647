//! The row system of a game of several players.
//!
//! The crate has no code that runs. The functions of `laws` state what the layers above cite.
#![tactic(auto)]

pub mod laws;
