//! What the items of an expression add to a side of an equation.
ghost use Rattle.std.specs.Prelude.{◌≡◌, Ok, IfOk, MatchResult};
ghost use Rattle.emp_ast.specs.Nodes.{join_node};
ghost use Rattle.emp_ast.specs.Trees.{tree_from};
ghost use Rattle.gms_grammar.specs.declared.fault.ModelFault.TheVariants.{NoMemory};
ghost use Rattle.gms_read.specs.Rules.{exponent};
ghost use Rattle.gms_read.specs.Performing.{Does};
ghost use Rattle.gms_read.specs.Sides.{no_side, grown, number_by, name_by, raised_to, raise_by, signed_by, joined_by, entered, exponent_of};

use crate::progress::{Second, Side};
use crate::roots::Roots;
use crate::shape::{accepts, arguments_shape, exponent};
use emp_ast::tree::{Node, Operator, Place, Tree, VarId};
use emp_list::memory;
use emp_list::seq::Seq;
use emp_num::frac::Frac;
use gms_grammar::fault::ModelFault;
use gms_grammar::item::Item;
use gms_grammar::lexeme::{Lexeme, Sign};
use std::alloc::Global;

/// The number of a node. The number 2^32 and those above want memory that no list has.
fn as_number(n: usize) -> Result<u32, ModelFault>
    ensures { MatchResult result (λ number. number ≡ n) (λ f. f ≡ NoMemory) }
{
    match u32::try_from(n) {
        Ok(number) => Ok(number),
        Err(_) => Err(ModelFault::NoMemory),
    }
}

fn join_node(operator: Operator, left: u32, right: u32) -> Node
    ensures { result ≡ join_node operator left right }
{
    match operator {
        Operator::Plus => Node::Add(left, right),
        Operator::Minus => Node::Sub(left, right),
        Operator::Times => Node::Mul(left, right),
        Operator::Over => Node::Div(left, right),
    }
}

impl Side {
    /// Nothing is read yet.
    pub fn new(alloc: Global) -> Side
        ensures { result ≡ no_side }
    {
        Side {
            nodes: Seq::new(alloc),
            places: Seq::new(alloc),
            roots: Roots::new(alloc),
            second: Second::Absent,
        }
    }

    /// Adds a node, which becomes the root of an operand.
    fn grow(&mut self, node: Node, place: Place) -> Result<(), ModelFault>
        ensures { Does result self.new (Ok (grown self.old self.old.roots node place)) }
    {
        let number = as_number(self.nodes.len())?;
        self.nodes.push(node)?;
        self.places.push(place)?;
        self.roots.push(number)?;
        self.second = Second::Absent;
        Ok(())
    }

    /// A numeral: an operand, or an exponent.
    pub fn number(&mut self, lexeme: Lexeme, value: Frac) -> Result<(), ModelFault>
        ensures { Does result self.new (Ok (number_by self.old lexeme.place value self.old.second)) }
    {
        match self.second {
            Second::Awaited => {
                self.second = Second::Given(exponent(value).unwrap_or(0));
                Ok(())
            }
            Second::Absent => self.grow(Node::Number(value), lexeme.place),
            Second::Given(_) => self.grow(Node::Number(value), lexeme.place),
        }
    }

    /// A name, with the number of the variable that it is declared as.
    pub fn name(&mut self, lexeme: Lexeme, found: Option<u32>) -> Result<(), ModelFault>
        ensures { Does result self.new (name_by self.old lexeme.place found) }
    {
        match found {
            Some(at) => self.grow(Node::Var(VarId { at }), lexeme.place),
            None => Err(ModelFault::Undeclared(lexeme.place)),
        }
    }

    /// The name of a function, with the items behind it.
    pub fn enter(&mut self, lexeme: Lexeme, rest: &[Item]) -> Result<(), ModelFault>
        ensures { Does result self.new (entered self.old lexeme rest.now) }
    {
        if accepts(lexeme.sort, arguments_shape(rest)) {
            Ok(())
        } else {
            Err(ModelFault::Function(lexeme.place))
        }
    }

    fn raise_to(&mut self, place: Place, exponent: u8) -> Result<(), ModelFault>
        ensures { Does result self.new (Ok (raised_to self.old place exponent)) }
    {
        let base = self.roots.take();
        self.grow(Node::Power(base, exponent), place)
    }

    /// The end of a function's arguments.
    pub fn apply(&mut self, lexeme: Lexeme) -> Result<(), ModelFault>
        ensures { Does result self.new (Ok (raised_to self.old lexeme.place (exponent_of self.old.second))) }
    {
        let exponent = match self.second {
            Second::Given(exponent) => exponent,
            Second::Absent => 2,
            Second::Awaited => 2,
        };
        self.raise_to(lexeme.place, exponent)
    }

    /// A power by `**`.
    pub fn raise(&mut self, lexeme: Lexeme, value: Frac) -> Result<(), ModelFault>
        ensures { Does result self.new (raise_by self.old lexeme.place (exponent value)) }
    {
        match exponent(value) {
            Some(exponent) => self.raise_to(lexeme.place, exponent),
            None => Err(ModelFault::Function(lexeme.place)),
        }
    }

    /// A sign before an operand.
    pub fn sign(&mut self, lexeme: Lexeme, sign: Sign) -> Result<(), ModelFault>
        ensures { Does result self.new (Ok (signed_by self.old lexeme.place sign)) }
    {
        match sign {
            Sign::Plus => Ok(()),
            Sign::Minus => {
                let operand = self.roots.take();
                self.grow(Node::Neg(operand), lexeme.place)
            }
        }
    }

    /// An operator behind both operands.
    pub fn join(&mut self, lexeme: Lexeme, operator: Operator) -> Result<(), ModelFault>
        ensures { Does result self.new (Ok (joined_by self.old lexeme.place operator)) }
    {
        let right = self.roots.take();
        let left = self.roots.take();
        self.grow(join_node(operator, left, right), lexeme.place)
    }

    /// The tree of all that is read, where it is one expression.
    pub fn tree(self, alloc: Global) -> Result<Option<Tree>, memory::NoMemory>
        ensures { IfOk result (λ t. t ≡ tree_from self.nodes self.places) }
    {
        Tree::of(alloc, self.nodes, self.places)
    }
}
