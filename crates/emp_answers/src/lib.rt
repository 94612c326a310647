//! What is answered over the texts of a request.
//!
//! `answer_texts` reads the texts and does what the verb says; `specs/Answers.antt` has the words of its contract, and
//! `specs/Laws.antt` what is so of the numbers that texts name.
#![tactic(auto)]

pub mod answer;
pub mod laws;
