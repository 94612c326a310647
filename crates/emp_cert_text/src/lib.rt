//! The texts of certificates.
#![tactic(auto)]

pub mod laws;
pub mod lines;
pub mod pieces;
pub mod read;
pub mod upgrade;
pub mod words;
pub mod write;
