//! Expressions as lists of nodes in postorder.
ghost use Rattle.std.specs.Prelude.{◌≡◌, true, length};
ghost use Rattle.emp_ast.specs.Expression.{is_postorder};

use crate::postorder::is_postorder;
use emp_list::memory::NoMemory;
use emp_list::seq::Seq;
use emp_num::frac::Frac;
use std::alloc::Global;

/// A variable by its number, from 0 in order of declaration.
#[derive(Clone, Copy, Debug, PartialEq, Eq)]
pub struct VarId {
    pub at: u32,
}

/// An equation by its number, from 0 in order of declaration.
#[derive(Clone, Copy, Debug, PartialEq, Eq)]
pub struct EquId {
    pub at: u32,
}

/// A place in a text: its line and its column in bytes, both from 1.
#[derive(Clone, Copy, Debug, PartialEq, Eq)]
pub struct Place {
    pub line: u32,
    pub column: u32,
}

/// What joins two expressions: `+`, `-`, `*`, `/`.
#[derive(Clone, Copy, Debug, PartialEq, Eq)]
pub enum Operator {
    Plus,
    Minus,
    Times,
    Over,
}

/// A node of an expression. Operands are numbers of earlier nodes.
#[derive(Clone, Copy, Debug)]
pub enum Node {
    Number(Frac),
    Var(VarId),
    Neg(u32),
    Add(u32, u32),
    Sub(u32, u32),
    Mul(u32, u32),
    Div(u32, u32),
    Power(u32, u8),
}

/// An expression: its nodes in postorder, the root last, with the place of each in its text.
///
/// The nodes are those of one expression: each takes as its operands the last roots that no node before it took, and one
/// root is left at the end (`is_postorder`). What the expression is stands in `specs/Expression.antt`; no meaning reads
/// a place.
#[derive(Drop)]
pub struct Tree {
    pub nodes: Seq<Node>,
    pub places: Seq<Place>,
    pub ghost whole: { is_postorder nodes ≡ true },
    pub ghost placed: { length places ≡ length nodes },
}

impl Tree {
    ghost use Rattle.std.specs.Prelude.{IfOk};
    ghost use Rattle.emp_ast.specs.Trees.{tree_from};

    /// The tree of these nodes and places. `None` exactly where the nodes are not those of one expression in postorder, or
    /// there is not one place for each.
    pub fn of(alloc: Global, nodes: Seq<Node>, places: Seq<Place>) -> Result<Option<Tree>, NoMemory>
        ensures { IfOk result (λ t. t ≡ tree_from nodes places) }
    {
        if is_postorder(alloc, nodes.as_slice())? && places.len() == nodes.len() {
            Ok(Some(Tree { nodes, places }))
        } else {
            Ok(None)
        }
    }

    /// The same tree once more.
    pub fn copy(&self, alloc: Global) -> Result<Tree, NoMemory>
        ensures { IfOk result (λ t. t ≡ self.now) }
    {
        let nodes = self.nodes.copy(alloc)?;
        let places = self.places.copy(alloc)?;
        Ok(Tree { nodes, places })
    }
}
