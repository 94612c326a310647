//! Exact polynomials of degree at most 2.
//!
//! `Quad` and `Lin` keep their coefficients in order and free of zeros. `from_tree` expands the tree of an expression,
//! `gradient` is the derivative by a variable, `difference` is one less another, and `at` is the value at a point.
#![tactic(auto)]

pub mod collect;
pub mod difference;
pub mod gradient;
pub mod laws;
pub mod quad;
pub mod spread;
pub mod tree;
pub mod value;
