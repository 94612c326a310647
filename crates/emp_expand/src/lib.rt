//! Expressions of degree at most 2, expanded with exact coefficients.
#![tactic(auto)]

pub mod coefficients;
pub mod expand;
pub mod powers;
pub mod products;
pub mod sums;
