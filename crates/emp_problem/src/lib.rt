//! What is left of a file when each defined objective is put in the place of its variable: agents and variational
//! inequalities over the variables that are left, with polynomials, and the game in whole numbers that they are.
#![tactic(auto)]

pub mod problem;
