//! Trees of certificates as lists of nodes.
ghost use Rattle.emp_cert.specs.Nodes.{AreTrees, AreTrees-prop};

use emp_list::seq::Seq;

/// A node of a tree.
#[derive(Drop)]
pub enum Node {
    /// The pair of this number, from 1. Two trees follow, for its first and then for its second member at 0.
    Branch(u32),
    /// One factor per quantity, for a sum that is to be a negative constant.
    Farkas(Seq<i128>),
    /// A weight of the objective and one factor per quantity, for a sum that is to bound the objective.
    Bound(i128, Seq<i128>),
}

/// One whole tree, as the list of its nodes in preorder.
#[derive(Drop)]
pub struct Tree {
    pub nodes: Seq<Node>,
    pub ghost whole: { AreTrees 1 nodes } by { AreTrees-prop 1 nodes },
}

/// A branch above a node, and which of its children the way to the node goes by.
#[derive(Clone, Copy, Debug, PartialEq, Eq)]
pub struct Turn {
    /// The number of the pair that is split, from 1.
    pub pair: u32,
    /// Whether it is the second member that is taken to be 0.
    pub second: bool,
}
