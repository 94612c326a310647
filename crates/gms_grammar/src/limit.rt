//! An end of a range.
use emp_num::frac::Frac;

/// An end of a range, as a setting gives it.
#[derive(Clone, Copy, Debug)]
pub enum Limit {
    /// Minus infinity.
    Below,
    At(Frac),
    /// Plus infinity.
    Above,
}
