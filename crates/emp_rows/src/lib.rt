//! Quantities of whole numbers, row systems, and the test that a point is one of a system.
#![tactic(auto)]

pub mod affine;
pub mod point;
pub mod primitive;
pub mod reduce;
pub mod system;
