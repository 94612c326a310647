//! Exact algebra of whole numbers: identities by a normaliser, products and the order, lists as vectors.
//!
//! The crate has no code that runs. Its functions state the laws that the layers above cite.
#![tactic(auto)]

ghost use Rattle.emp_algebra.specs.Deciding.{RefutationLeavesNone, BoundHolds};
ghost use Rattle.emp_algebra.specs.Laws.{DotIsLinear, OrderKeepsProducts};

/// The dot product is linear.
pub fn dot_is_linear()
    ensures { DotIsLinear }
{}

/// The order and equality go with products by a number above 0.
pub fn order_keeps_products()
    ensures { OrderKeepsProducts }
{}

/// A combination of rows with factors that fit their kinds, whose cells are 0 and whose constant is negative, leaves no
/// point that meets the rows.
pub fn refutation_leaves_none()
    ensures { RefutationLeavesNone }
{}

/// Where a multiple of an objective minus such a combination is a constant, that constant bounds the objective at every
/// point that meets the rows.
pub fn bound_holds()
    ensures { BoundHolds }
{}
