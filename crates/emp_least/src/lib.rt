//! A convex quadratic on a system of affine quantities: it has a least point, or a step along which it falls without end.
//!
//! The crate has no code that runs. The functions of `laws` state what the layers above cite, those of `examples` what the
//! definitions accept and refuse.
#![tactic(auto)]

pub mod examples;
pub mod laws;
