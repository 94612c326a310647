//! Expressions as polynomials of degree at most 2, without bound.
//!
//! `specs/Form.antt` has polynomials whose numbers nothing bounds, `specs/Expansion.antt` the polynomial of an expression and
//! the faults of a node that its coefficients decide, `specs/Calls.antt` and `specs/Wide.antt` when a node is wide.
#![tactic(auto)]

pub mod laws;
