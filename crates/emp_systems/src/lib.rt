//! Systems of affine quantities, short steps of quadratics, and the multipliers of one chooser.
//!
//! The crate has no code that runs. The functions of `laws` state what the layers above cite.
#![tactic(auto)]

pub mod laws;
