//! The expansion of a list of nodes, along a stack of polynomials.
ghost use Rattle.std.specs.Prelude.{◌≡◌, ◌<◌, ◌+◌, ◌∷◌, true, reverse, length, OnOk};
ghost use Rattle.emp_ast.specs.Expression.{is_postorder};
ghost use Rattle.emp_form.specs.Form.{Form, form_of, variable_form, negated_form};
ghost use Rattle.emp_expand.specs.Stands.{Stands};
ghost use Rattle.emp_expand.specs.Expanding.{SumGives, NumberGives, VariableGives, NegationGives, Applies, HasOperands, ExpandGives};

use crate::coefficients::Coefficients;
use crate::powers::{constant, power};
use crate::products::{NodeFault, divide, multiply, node_result, of_part};
use emp_ast::tree::Node;
use emp_num::frac::Frac;
use std::alloc::{AllocError, Global};

/// A node's fault with the number of the node.
#[derive(Clone, Copy, Debug, PartialEq, Eq)]
pub struct ExpandFault {
    pub at: usize,
    pub fault: NodeFault,
}

/// The sum or the difference, in the first one's place.
fn gathered(left: Coefficients, right: Coefficients, minus: bool) -> Result<Coefficients, NodeFault>
    ensures { SumGives minus left right result }
{
    let mut all = left;
    match all.gather(right, minus) {
        Ok(()) => Ok(all),
        Err(fault) => Err(of_part(fault)),
    }
}

/// Takes the top of the stack.
fn pulled(stack: &mut Vec<Coefficients>) -> Coefficients
    requires { 0 < length stack.old.items }
    ensures top { reverse stack.old.items ≡ result ∷ reverse stack.new.items }
    ensures fewer { length stack.new.items + 1 ≡ length stack.old.items }
{
    match stack.pop() {
        Some(top) => top,
        None => unreachable!(),
    }
}

/// The opposite.
fn negated(alloc: Global, operand: Coefficients) -> Result<Coefficients, NodeFault>
    ensures { NegationGives operand result }
{
    gathered(Coefficients::new(alloc), operand, true)
}

/// A number.
fn number(alloc: Global, value: Frac) -> Result<Coefficients, NodeFault>
    ensures { NumberGives value result }
{
    let found = constant(alloc, value);
    node_result(found)
}

/// A variable by its number.
fn variable(alloc: Global, at: u32) -> Result<Coefficients, NodeFault>
    ensures { VariableGives at result }
{
    let mut all = Coefficients::new(alloc);
    let one = Frac::reduced(1, 1);
    let Ok(()) = all.put((None, Some(at)), one) else {
        return Err(NodeFault::NoMemory);
    };
    Ok(all)
}

/// The result of a node, whose operands are taken from the stack.
fn applied(
    alloc: Global,
    stack: &mut Vec<Coefficients>,
    node: Node,
) -> Result<Coefficients, NodeFault>
    requires { HasOperands (length stack.old.items) node }
    ensures { Applies (reverse stack.old.items) node result (reverse stack.new.items) }
{
    match node {
        Node::Number(value) => number(alloc, value),
        Node::Var(variable_of) => variable(alloc, variable_of.at),
        Node::Neg(_) => {
            let operand = pulled(stack);
            negated(alloc, operand)
        }
        Node::Add(_, _) => {
            let right = pulled(stack);
            let left = pulled(stack);
            gathered(left, right, false)
        }
        Node::Sub(_, _) => {
            let subtrahend = pulled(stack);
            let minuend = pulled(stack);
            gathered(minuend, subtrahend, true)
        }
        Node::Mul(_, _) => {
            let second = pulled(stack);
            let first = pulled(stack);
            multiply(alloc, &first, &second)
        }
        Node::Div(_, _) => {
            let divisor = pulled(stack);
            let dividend = pulled(stack);
            divide(alloc, &dividend, &divisor)
        }
        Node::Power(_, exponent) => {
            let base = pulled(stack);
            power(alloc, base, exponent)
        }
    }
}

/// Puts a result onto the stack.
fn laid(stack: &mut Vec<Coefficients>, value: Coefficients) -> Result<(), AllocError>
    ensures { OnOk result (reverse stack.new.items ≡ value ∷ reverse stack.old.items) }
{
    stack.push(value)?;
    Ok(())
}

/// The polynomial of a list of nodes in postorder, by a stack of those that no node took yet.
pub fn expanded(alloc: Global, nodes: &[Node]) -> Result<Coefficients, ExpandFault>
    requires postorder { is_postorder nodes.now ≡ true }
    ensures { ExpandGives nodes.now result }
{
    let mut stack = Vec::new(alloc);
    for at in 0..nodes.len() {
        match applied(alloc, &mut stack, nodes[at]) {
            Ok(value) => {
                let Ok(()) = laid(&mut stack, value) else {
                    return Err(ExpandFault {
                        at,
                        fault: NodeFault::NoMemory,
                    });
                };
            }
            Err(fault) => return Err(ExpandFault { at, fault }),
        }
    }
    let root = pulled(&mut stack);
    Ok(root)
}
