//! Every line and report that is said of files: fault lines of texts, of ownership, of classes of files, of numbers and of
//! certificates, formed without memory, and reports of what was found.
//!
//! A want of memory is no fault line here: there the functions answer `None`.
#![tactic(auto)]

pub mod certificates;
pub mod classes;
pub mod parts;
pub mod report;
pub mod texts;
