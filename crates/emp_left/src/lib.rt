//! Polynomials of the variables that are left, as rows and quadratics of a game.
//!
//! The crate has no code that runs. The functions of `laws` state what the layers above cite.
#![tactic(auto)]

pub mod laws;
