//! The polynomials of agents: the given value of an objective, and in which of its own variables an agent is convex.
//!
//! The crate has no code that runs. The functions of `laws` state what the layers above cite.
#![tactic(auto)]

pub mod laws;
