//! Accepted pairs of files.
//!
//! What an accepted pair is stands in `specs/Accepted.antt`, and the laws in `specs/Laws.antt`.
#![tactic(auto)]

pub mod laws;
