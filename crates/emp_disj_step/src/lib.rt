//! A model with disjunctions and its rows, as a rewriting.
#![tactic(auto)]

pub mod disj;
