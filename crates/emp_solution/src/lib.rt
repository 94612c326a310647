//! From a file to its rows, and from what is found of the rows back to the file.
//!
//! `state` makes the row system of a file. What a verdict on the rows says of the file stands in `specs/Tells.antt`, and the laws in
//! `specs/Laws.antt`.
#![tactic(auto)]

pub mod laws;
pub mod state;
