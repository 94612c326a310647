//! Certificates of row systems: what they name, what their rows and trees show, and the law that what is shown is so.
#![tactic(auto)]

pub mod cert;
pub mod laws;
pub mod tree;
