//! Each problem has a number over which all its coefficients are whole, and over such a number it is the game of its file.
//!
//! The crate has no code that runs. The functions of `laws` state what the layers above cite.
#![tactic(auto)]

pub mod laws;
