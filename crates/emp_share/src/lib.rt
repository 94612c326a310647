//! The test that each agent of a problem is convex, by the fold of its second derivatives.
#![tactic(auto)]

pub mod laws;
pub mod share;
