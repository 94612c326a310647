//! What a file and a request of it determine: the fault of the file, what the search ends with, the values, and the answer; and that
//! what the program stores passes its own checker.
//!
//! The crate has no code that runs. The functions of `laws` state the laws.
#![tactic(auto)]

pub mod laws;
