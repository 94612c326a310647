//! Games of players with affine rules in whole numbers: solved points, multipliers and rows, each to each.
//!
//! The crate has no code that runs. The functions of `laws` state what the layers above cite.
#![tactic(auto)]

pub mod laws;
