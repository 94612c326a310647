//! How many nodes a search opens, and with how many units it comes to an end.
#![tactic(auto)]

pub mod laws;
