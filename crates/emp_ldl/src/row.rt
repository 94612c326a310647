//! One row of the fold.

/// Why a row ends the fold.
#[derive(Clone, Copy, Debug, PartialEq, Eq)]
pub enum RowFault {
    /// The pivot is negative, or a residual is not 0 in a column whose pivot is 0.
    Not,
    /// A number that the row forms is wide.
    Wide,
    /// There was no memory for the row.
    NoMemory,
}

pub mod entry;
