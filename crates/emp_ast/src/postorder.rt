//! Whether nodes are those of one expression.
ghost use Rattle.std.specs.Prelude.{◌≡◌, ◌∷◌, ℕ, true, IfOk, reverse};
ghost use Rattle.emp_ast.specs.Expression.{pops, operands, is_postorder};
ghost use Rattle.emp_ast.specs.Trees.{is_last, but_last, Settles};

use crate::tree::Node;
use emp_list::memory::NoMemory;
use std::alloc::Global;

/// Takes the last root, and tells whether it is the operand.
#[tactic(auto, using(crate::proofs::Trees::stacking))]
fn take_root(roots: &mut Vec<usize>, operand: u32) -> bool
    ensures is { result ≡ is_last operand (reverse roots.old.items) }
    ensures rest { reverse roots.new.items ≡ but_last (reverse roots.old.items) }
{
    match roots.pop() {
        Some(root) => root == operand as usize,
        None => false,
    }
}

/// Takes the operands of a node, and tells whether they are the last of the roots.
#[tactic(auto, using(crate::proofs::Trees::settling))]
fn take_operands(roots: &mut Vec<usize>, node: Node) -> bool
    ensures { (at : ℕ) → Settles (pops (operands node) at (reverse roots.old.items)) (at ∷ reverse roots.new.items) result }
{
    match node {
        Node::Number(_) => true,
        Node::Var(_) => true,
        Node::Neg(operand) => take_root(roots, operand),
        Node::Add(left, right) => take_root(roots, right) && take_root(roots, left),
        Node::Sub(left, right) => take_root(roots, right) && take_root(roots, left),
        Node::Mul(left, right) => take_root(roots, right) && take_root(roots, left),
        Node::Div(left, right) => take_root(roots, right) && take_root(roots, left),
        Node::Power(operand, _) => take_root(roots, operand),
    }
}

/// Whether each node takes the last roots as its operands, and one root is left.
#[tactic(auto, using(crate::proofs::Trees::walking))]
pub fn is_postorder(alloc: Global, nodes: &[Node]) -> Result<bool, NoMemory>
    ensures { IfOk result (λ b. b ≡ is_postorder nodes.now) }
{
    let mut roots = Vec::new(alloc);
    for at in 0..nodes.len() {
        if !take_operands(&mut roots, nodes[at]) {
            return Ok(false);
        }
        roots.push(at)?;
    }
    Ok(roots.len() == 1)
}
