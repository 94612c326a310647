//! The checker: it tests a certificate of a row system in the written order, with no memory and no recursion.
#![tactic(auto)]

pub mod check;
pub mod head;
pub mod laws;
pub mod leaf;
pub mod nodes;
pub mod outcome;
pub mod trail;
