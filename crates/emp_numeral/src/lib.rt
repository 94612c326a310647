//! Numerals and fractions as text: a numeral is read exactly, and a fraction is written.
#![tactic(auto)]

pub mod laws;
pub mod numeral;
pub mod print;
