//! How a step ends.

/// The outcome of a step.
#[derive(Clone, Copy, Debug, PartialEq, Eq)]
pub enum Outcome {
    /// The quantity is as it was asked to be.
    Held,
    /// No point with the Fixed quantities at 0 has the quantity of this row as it was asked to be.
    Empty(usize),
    /// The objective is least; it stands in this row.
    Best(usize),
    /// The objective falls without end as this column moves, up where the second part is true and else down.
    Ray(usize, bool),
}

/// Why a step ends without an outcome.
#[derive(Clone, Copy, Debug, PartialEq, Eq)]
pub enum StepFault {
    /// A number that the next pivot forms has absolute value 2^126 or more.
    Wide,
    /// A pivot is next and no unit of work is left.
    Spent,
}
