//! The search of a row system by branching on its pairs, with least-index steps at each node.
#![tactic(auto)]

pub mod examples;
pub mod laws;
