//! The search of a row system by branching on its pairs, with one kept dictionary for each open branch and no recursion.
#![tactic(auto)]

pub mod asks;
mod course;
pub mod fault;
pub mod kept;
mod next;
pub mod search;
pub mod walk;
