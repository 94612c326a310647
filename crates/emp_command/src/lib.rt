//! The words of the command line, and what a call does with a desk.
//!
//! `words` takes the words apart into a request. `files` loads what the request reads. `delivery` stores and says what the
//! call came to. What is answered over the texts that were loaded stands in the layers above.
#![tactic(auto)]

pub mod delivery;
pub mod files;
pub mod line;
pub mod refusal;
pub mod words;
