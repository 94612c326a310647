//! A file as the problem of the variables that are left, and the way back of a point.
//!
//! `make` puts each defined objective in the place of its variable, `fill` gives a point of the file for one of the problem.
//! What their answers mean stands in `specs/Subst.antt` and `specs/Fill.antt`.
#![tactic(auto)]

pub mod expand;
pub mod fault;
pub mod fill;
pub mod goals;
pub mod laws;
pub mod lefts;
pub mod make;
pub mod parts;
pub mod quadratic;
pub mod rules;
pub mod terms;
