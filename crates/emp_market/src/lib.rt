//! What is so of the files of generated markets, whatever the seed: they are an accepted pair.
#![tactic(auto)]

pub mod accepting;
