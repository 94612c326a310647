//! What the checker answers, and what its tests come to.
use emp_num::frac::Frac;

/// Why a certificate is refused.
#[derive(Clone, Copy, Debug, PartialEq, Eq)]
pub enum Why {
    /// The counts are not the system's.
    Sizes,
    /// The pairs that are named are not the system's pairs in order.
    Pairs,
    /// The verdict does not fit the system, which has an objective or none; or a bound stands where no point is named.
    Kind,
    /// A quantity's value at the point is not as its kind asks.
    Quantity,
    /// No member of a pair is 0 at the point.
    Pair,
    /// A rate along the step is not as it should be.
    Ray,
    /// A branch splits a pair that is split above it.
    Split,
    /// A factor is negative on a quantity that is to be at least 0 and is not taken to be 0 above the leaf.
    Factor,
    /// A leaf's sum has a coefficient other than 0.
    NotConstant,
    /// A leaf's constant decides nothing.
    Constant,
}

/// What a test comes to.
#[derive(Clone, Copy, Debug, PartialEq, Eq)]
pub enum Tested {
    Fine,
    Wrong(Why),
    /// A number formed before the test is decided has an absolute value of 2^126 or more.
    Wide,
}

/// What the checker answers, a fault with the number of its node. Node 0 is the certificate's head; the nodes of the tree
/// count from 1 in their order.
#[derive(Clone, Copy, Debug, PartialEq, Eq)]
pub enum Checked {
    Accepted,
    Rejected(u64, Why),
    /// A number formed in the node's tests has an absolute value of 2^126 or more.
    Wide(u64),
}

/// What bounds are held against.
#[derive(Clone, Copy, Debug, PartialEq, Eq)]
pub enum Named {
    /// The certificate names no point to be best.
    Nothing,
    /// The objective's value at the point that is named.
    Value(Frac),
    /// A number formed in that value is wide.
    TooWide,
}
