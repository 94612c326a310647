//! Why a search ends without a verdict.

/// Why a search ends without a verdict.
#[derive(Clone, Copy, Debug, PartialEq, Eq)]
pub enum WalkFault {
    /// At this node, counted from 1 as they are opened, the pivot of this number in the whole search, from 1, forms a number with absolute value
    /// 2^126 or more.
    Wide(u64, u64),
    /// One more unit of work is asked for after as many as this limit were taken.
    Spent(u64),
    /// No memory is left.
    NoMemory,
}
