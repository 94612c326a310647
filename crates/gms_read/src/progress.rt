//! How far a list of items is performed.
use crate::draft::Draft;
use crate::roots::Roots;
use emp_ast::model::Relation;
use emp_ast::tree::{Node, Place};
use emp_list::seq::Seq;

/// The second argument of a function.
#[derive(Clone, Copy, Debug)]
pub enum Second {
    /// None so far.
    Absent,
    /// It comes next.
    Awaited,
    /// An exponent.
    Given(u8),
}

/// A side of an equation as far as it is read.
#[derive(Drop)]
pub struct Side {
    /// The nodes of its operands in postorder, and the place of each.
    pub nodes: Seq<Node>,
    pub places: Seq<Place>,
    /// The roots of the operands that nothing joins yet.
    pub roots: Roots,
    pub second: Second,
}

/// What stands when some items are performed.
#[derive(Drop)]
pub struct Progress {
    pub draft: Draft,
    /// The equation that is being defined.
    pub equation: u32,
    /// Its left side, and how it stands to the right one, once these are read.
    pub left: Side,
    pub relation: Relation,
    /// The side that is being read.
    pub side: Side,
}
