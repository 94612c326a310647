//! What `make` answers.
//!
//! `answer_market` makes a market of a seed, solves it and sums its equilibrium up; `specs/Makes.antt` has the words of its
//! contract, and `specs/Laws.antt` what is so of every answer.
#![tactic(auto)]

pub mod answer;
pub mod laws;
pub mod saves;
pub mod summary;
pub mod sums;
