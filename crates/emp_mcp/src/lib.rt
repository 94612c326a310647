//! Complementarity models: a model whose equations are matched with variables, its complementary points, and the file in its
//! place, a variational inequality without constraints.
//!
//! What complementary points are stands in `specs/Complementary.antt`, the rules of matches in `specs/Faults.antt`, the file in
//! `specs/Target.antt`.
#![tactic(auto)]

pub mod laws;
