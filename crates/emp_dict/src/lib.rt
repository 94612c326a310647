//! Dictionaries: rows that tell quantities by those of the columns, exchanges in place, and the choice of an exchange by least index.
#![tactic(auto)]

pub mod choose;
pub mod dict;
pub mod label;
pub mod laws;
pub mod start;
