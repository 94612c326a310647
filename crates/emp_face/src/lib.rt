//! The steps of the search over a dictionary, with a budget of work: a quantity is made at least 0, a quantity is made 0, the objective is made
//! least.
#![tactic(auto)]

pub mod budget;
pub mod look;
mod run;
pub mod steps;
