//! The second derivatives of a quadratic, and in which coordinates they show that it is convex.
//!
//! The crate has no code that runs. The functions of `laws` state what the layers above cite.
#![tactic(auto)]

pub mod laws;
