//! What a file determines: its problem, the answer of the test of its agents, and its row system.
//!
//! The crate has no code that runs. The functions of `laws` state what the layers above cite.
#![tactic(auto)]

pub mod laws;
