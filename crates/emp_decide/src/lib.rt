//! What is read off a dictionary: its point, the step of a column, and the factors of a row that decides.
#![tactic(auto)]

pub mod laws;
pub mod point;
pub mod row;
