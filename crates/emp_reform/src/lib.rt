//! Problems, and how one is put into the place of another.
//!
//! Meanings speak of points with numbers without bound. A run-time point, a list of fractions, stands for such points.
#![tactic(auto)]

pub mod fault;
pub mod problem;
pub mod reform;
pub mod then;
