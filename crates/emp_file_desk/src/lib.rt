//! The desk of real files, which the program works on.
#![tactic(auto)]

pub mod file_desk;
pub mod streams;
