//! The top call: it loads the files of a request, answers over their texts, stores and says the answer.
//!
//! `run` is what the program calls. `specs/Run.antt` has the words of its clauses; what is answered over texts stands in
//! `specs/Answers.antt` of `emp_answers`, and what is answered over what they stand for in `specs/Outcomes.antt` of `emp_outcomes`.
#![tactic(auto)]

pub mod laws;
pub mod run;
