//! Lists and names that contracts see as lists, and the want of memory.
#![tactic(auto)]

pub mod memory;
pub mod name;
pub mod seq;
