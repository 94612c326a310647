//! The row system of what is left of a file.
//!
//! `make` gives it. `specs/Items.antt` says which quantities are asked, `specs/Cells.antt` what their coefficients are as
//! fractions, and `specs/Gives.antt` each outcome: the system is that of the problem's game over each number that the
//! fractions are over (`specs/Over.antt` of `emp_quantities`).
#![tactic(auto)]

pub mod asked;
pub mod cells;
pub mod extras;
pub mod make;
pub mod places;
pub mod rows;
