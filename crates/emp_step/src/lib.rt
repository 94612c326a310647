//! The steps of the search: what is done to a dictionary to make a quantity at least 0, to make it 0, or to make the
//! objective least.
//!
//! The crate has no code that runs. It has the definitions of the steps and the laws that the layers above cite.
#![tactic(auto)]

pub mod laws;
pub mod outcome;
