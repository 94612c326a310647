//! A file, the problem of its variables that are left, and its rows: what solves each, which point is better, and which point of
//! the one a point of the next stands for.
//!
//! The crate has no code that runs. The functions of `laws` state what the members of the chain rest on.
#![tactic(auto)]

pub mod laws;
