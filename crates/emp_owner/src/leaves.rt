//! How often variables are leaves of the equations, and whether one stands under sums alone.
//!
//! Both go once over the nodes of a tree.
ghost use Rattle.std.specs.Prelude.{◌≡◌, ◌+◌, [], ◌∷◌, Bool, reverse, length, OnOk, IfOk};
ghost use Rattle.emp_ast.specs.Expression.{expression_of};
ghost use Rattle.emp_ast.specs.Occurrence.{leaves, equation_leaves, is_summand, is_summand_of};
ghost use Rattle.emp_ast.specs.declared.tree.Node.TheVariants.{Var};
ghost use Rattle.emp_owner.specs.NodeLeaves.{node_leaves, HasCounted, AreCounts, joined_flags, node_flags};

use crate::blocks::capped_sum;
use emp_ast::model::{Equation, Model};
use emp_ast::tree::{Node, Tree, VarId};
use emp_list::memory::NoMemory;
use emp_list::seq::Seq;
use std::alloc::Global;

/// Counts a leaf for its variable, 2 standing for more.
fn count_leaf(counts: &mut Seq<usize>, v: VarId)
    ensures { HasCounted counts.old counts.new (λ w. node_leaves w (Var v ∷ [])) }
{
    let at = v.at as usize;
    if at < counts.len() {
        let more = capped_sum(*counts.get(at), 1);
        counts.set(at, more);
    }
}

/// Counts the leaves of a tree.
fn count_tree(counts: &mut Seq<usize>, tree: &Tree)
    ensures { HasCounted counts.old counts.new (λ v. leaves v (expression_of tree.now.nodes)) }
{
    for node in tree.nodes.as_slice() {
        if let Node::Var(v) = node {
            count_leaf(counts, *v);
        }
    }
}

/// Counts the leaves of an equation.
fn count_equation(counts: &mut Seq<usize>, equation: &Equation)
    ensures { HasCounted counts.old counts.new (λ v. equation_leaves v equation.now) }
{
    count_tree(counts, &equation.left);
    count_tree(counts, &equation.right);
}

/// As many zeros as there are variables.
fn zeros(alloc: Global, count: usize) -> Result<Seq<usize>, NoMemory>
    ensures { IfOk result (λ list. AreCounts count [] list) }
{
    let mut list = Seq::new(alloc);
    for i in 0..count {
        list.push(0)?;
    }
    Ok(list)
}

/// How often each variable is a leaf of the equations, 2 standing for more.
pub fn count_leaves(alloc: Global, model: &Model) -> Result<Seq<usize>, NoMemory>
    ensures { IfOk result (λ counts. AreCounts (length model.now.variables) model.now.equations counts) }
{
    let mut counts = zeros(alloc, model.variables.len())?;
    for equation in model.equations.as_slice() {
        count_equation(&mut counts, equation);
    }
    Ok(counts)
}

/// Takes the flags of two expressions for that of the one which joins them.
#[tactic(auto, using(crate::proofs::NodeLeaves::stacking))]
fn join(flags: &mut Vec<bool>, additive: bool) -> Result<(), NoMemory>
    ensures { OnOk result (reverse flags.new.items ≡ joined_flags additive (reverse flags.old.items)) }
{
    let Some(right) = flags.pop() else {
        return Ok(());
    };
    let joined = match flags.pop() {
        Some(left) => additive && (left || right),
        None => right,
    };
    flags.push(joined)?;
    Ok(())
}

/// Takes a node: the flags tell, for the expressions that no node took yet, whether w stands in it under sums alone.
#[tactic(auto, using(crate::proofs::NodeLeaves::stacking))]
fn take_node(flags: &mut Vec<bool>, node: Node, w: VarId) -> Result<(), NoMemory>
    ensures { OnOk result (reverse flags.new.items ≡ node_flags w.at (reverse flags.old.items) node) }
{
    match node {
        Node::Number(_) => flags.push(false)?,
        Node::Var(v) => flags.push(v.at == w.at)?,
        Node::Neg(_) => {}
        Node::Add(_, _) | Node::Sub(_, _) => join(flags, true)?,
        Node::Mul(_, _) | Node::Div(_, _) => join(flags, false)?,
        Node::Power(_, _) => {
            if flags.pop().is_some() {
                flags.push(false)?;
            }
        }
    }
    Ok(())
}

/// Whether there is one flag, and it is true.
fn is_only_true(flags: &[bool]) -> bool
    ensures { (b : Bool) → flags.now ≡ b ∷ [] → result ≡ b }
{
    flags.len() == 1 && flags[0]
}

/// Whether from the root of the tree to some leaf w there are only sums, differences and negations.
fn is_summand(alloc: Global, tree: &Tree, w: VarId) -> Result<bool, NoMemory>
    ensures { IfOk result (λ b. b ≡ is_summand w.at (expression_of tree.now.nodes)) }
{
    let mut flags = Vec::new(alloc);
    for node in tree.nodes.as_slice() {
        take_node(&mut flags, *node, w)?;
    }
    Ok(is_only_true(flags.as_slice()))
}

/// The same for one of the equation's sides.
pub fn is_summand_of(alloc: Global, equation: &Equation, w: VarId) -> Result<bool, NoMemory>
    ensures { IfOk result (λ b. b ≡ is_summand_of w.at equation.now) }
{
    Ok(is_summand(alloc, &equation.left, w)? || is_summand(alloc, &equation.right, w)?)
}
