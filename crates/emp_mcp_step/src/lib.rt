//! Complementarity models as problems, and the file in the place of one as a rewriting.
//!
//! `Mcp` is a member of the trait `Reform`, to the problem of a file, so it stands before the steps of `emp_chain`.
#![tactic(auto)]

pub mod mcp;
pub mod problem;
