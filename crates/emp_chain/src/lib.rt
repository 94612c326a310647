//! The steps from a file to its rows, as rewritings: each has a way back of points, and laws that say what it keeps.
//!
//! `Subst` puts the problem of the variables that are left in the place of a file, `Share` the same problem with its agents known
//! to be convex, and `Kkt` its rows. `chain` is all three as one. Each layer has a type of points of its own.
#![tactic(auto)]

pub mod chain;
pub mod file;
pub mod kkt;
pub mod laws;
pub mod left;
pub mod rows;
pub mod share;
pub mod subst;
