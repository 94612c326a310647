//! The variables that are left, and the own variables among them.
ghost use Rattle.std.specs.Prelude.{◌≡◌, ◌<◌, ◌++◌, ◌&&◌, not, map, filter, length, OnOk, IfOk};
ghost use Rattle.emp_ast.specs.Parties.{leader, goal_objective, is_goal, owns, block_variables, some_block_defines, is_defined, is_defined_of};
ghost use Rattle.emp_owner.specs.Settled.{AreDefinitions, IsLeaderDefinition, AreOwned};
ghost use Rattle.emp_problem.specs.Left.{left, leader_own};
ghost use Rattle.emp_problem.specs.ProblemOf.{left_variable};
ghost use Rattle.emp_subst.specs.Stages.{is_some, is_solved_by, is_solved};

use emp_ast::annot::{Annot, Block};
use emp_ast::model::{Model, Sense};
use emp_ast::tree::{EquId, VarId};
use emp_list::memory::NoMemory;
use emp_list::seq::Seq;
use emp_owner::blocks::some_owns;
use emp_owner::listed::{names_variable, pairs_variable};
use emp_owner::owned::Owned;
use emp_problem::problem::LeftVariable;
use std::alloc::{AllocError, Global};

/// Whether there is an equation.
pub fn is_some(definition: Option<EquId>) -> bool
    ensures { result ≡ is_some definition }
{
    match definition {
        Some(_) => true,
        None => false,
    }
}

/// Whether the variable is the objective of a block that has a definition.
pub fn is_solved(block: &Block, definition: Option<EquId>, v: VarId) -> bool
    ensures { result ≡ is_solved block.now definition v.at }
{
    match block {
        Block::Agent { objective, .. } => objective.at == v.at && is_some(definition),
        Block::Vi { .. } => false,
    }
}

/// Whether the variable is the objective of the solve statement, which has a definition.
fn goal_solved(goal: Option<(Sense, VarId)>, definition: Option<EquId>, v: VarId) -> bool
    ensures { result ≡ is_solved_by definition (goal_objective goal) v.at }
{
    match goal {
        Some((_, w)) => w.at == v.at && is_some(definition),
        None => false,
    }
}

/// Whether the variable is the defined objective of the leader of a bilevel file.
#[tactic(auto, using(crate::proofs::Defined::leader_defined))]
fn leader_solved(model: &Model, annot: &Annot, definition: Option<EquId>, v: VarId) -> bool
    requires definition { IsLeaderDefinition model.now annot.now annot.now.bilevel definition }
    ensures { result ≡ (annot.now.bilevel && is_defined_of model.now annot.now leader v.at) }
{
    annot.bilevel && goal_solved(model.goal, definition, v)
}

/// Whether the variable is the defined objective of a block.
#[tactic(auto, using(crate::proofs::Defined::solving))]
fn some_solved(model: &Model, annot: &Annot, defined: &Seq<Option<EquId>>, v: VarId) -> bool
    requires defined { AreDefinitions model.now annot.now defined.now }
    ensures { result ≡ some_block_defines model.now annot.now v.at (length annot.now.blocks) }
{
    for at in 0..annot.blocks.len() {
        if is_solved(annot.blocks.get(at), *defined.get(at), v) {
            return true;
        }
    }
    false
}

/// Whether the variable is a defined objective.
pub fn is_defined(model: &Model, annot: &Annot, owned: &Owned, v: VarId) -> bool
    requires owned { AreOwned model.now annot.now owned.now }
    ensures { result ≡ is_defined model.now annot.now v.at }
{
    some_solved(model, annot, &owned.defined, v) || leader_solved(model, annot, owned.leader, v)
}

/// The variables that are left, in order of declaration.
#[tactic(auto, using(crate::proofs::LeftLists::lefts))]
pub fn left_variables(
    alloc: Global,
    model: &Model,
    annot: &Annot,
    owned: &Owned,
) -> Result<Seq<LeftVariable>, NoMemory>
    requires variables { length model.now.variables < 4294967296 }
    requires owned { AreOwned model.now annot.now owned.now }
    ensures { IfOk result (λ list. list ≡ map (left_variable model.now) (left model.now annot.now)) }
{
    let mut list = Seq::new(alloc);
    for at in 0..model.variables.len() {
        let v = VarId { at: at as u32 };
        if !is_defined(model, annot, owned, v) {
            let variable = model.variables.get(at);
            list.push(LeftVariable {
                variable: v,
                low: variable.low,
                high: variable.high,
            })?;
        }
    }
    Ok(list)
}

/// Puts the variables at the end.
#[tactic(auto, using(crate::proofs::Putting::putting))]
fn put_variables(list: &mut Seq<VarId>, vars: &Seq<VarId>) -> Result<(), AllocError>
    ensures { OnOk result (list.new ≡ list.old ++ vars.now) }
{
    for at in 0..vars.len() {
        list.push(*vars.get(at))?;
    }
    Ok(())
}

/// Puts the variables of the pairs at the end.
#[tactic(auto, using(crate::proofs::Putting::putting))]
fn put_paired(list: &mut Seq<VarId>, pairs: &Seq<(EquId, VarId)>) -> Result<(), AllocError>
    ensures { OnOk result (list.new ≡ list.old ++ map (λ q. q.1) pairs.now) }
{
    for at in 0..pairs.len() {
        list.push(pairs.get(at).1)?;
    }
    Ok(())
}

/// The own variables of the block, in its order.
fn variables_of(alloc: Global, block: &Block) -> Result<Seq<VarId>, NoMemory>
    ensures { IfOk result (λ list. list ≡ block_variables block.now) }
{
    let mut list = Seq::new(alloc);
    match block {
        Block::Agent {
            objective,
            vars,
            ..
        } => {
            list.push(*objective)?;
            put_variables(&mut list, vars)?;
        }
        Block::Vi { zeros, pairs, .. } => {
            put_variables(&mut list, zeros)?;
            put_paired(&mut list, pairs)?;
        }
    }
    Ok(list)
}

/// Those of the variables that are not the defined objective of the block, in their order.
#[tactic(auto, using(crate::proofs::Putting::putting))]
fn left_of(
    alloc: Global,
    block: &Block,
    definition: Option<EquId>,
    variables: &Seq<VarId>,
) -> Result<Seq<VarId>, NoMemory>
    ensures { IfOk result (λ list. list ≡ filter (λ v. not (is_solved block.now definition v.at)) variables.now) }
{
    let mut list = Seq::new(alloc);
    for at in 0..variables.len() {
        let v = *variables.get(at);
        if !is_solved(block, definition, v) {
            list.push(v)?;
        }
    }
    Ok(list)
}

/// The own variables of the block that are left, in its order.
pub fn own_of(
    alloc: Global,
    block: &Block,
    definition: Option<EquId>,
) -> Result<Seq<VarId>, NoMemory>
    ensures { IfOk result (λ list. list ≡ filter (λ v. not (is_solved block.now definition v.at)) (block_variables block.now)) }
{
    let variables = variables_of(alloc, block)?;
    left_of(alloc, block, definition, &variables)
}

/// Whether the variable is the objective of the solve statement.
fn is_goal(goal: Option<(Sense, VarId)>, v: VarId) -> bool
    ensures { (m : Model) → m.goal ≡ goal → result ≡ is_goal m v.at }
{
    match goal {
        Some((_, w)) => w.at == v.at,
        None => false,
    }
}

/// Whether the leader owns the variable.
fn leader_owns(model: &Model, annot: &Annot, v: VarId) -> bool
    ensures { result ≡ owns model.now annot.now leader v.at }
{
    is_goal(model.goal, v)
        || names_variable(&annot.leader, v)
        || (!some_owns(annot, v) && !pairs_variable(&annot.duals, v))
}

/// The leader's variables that are left, in order of declaration.
#[tactic(auto, using(crate::proofs::Putting::putting))]
pub fn leader_own(
    alloc: Global,
    model: &Model,
    annot: &Annot,
    variables: &Seq<LeftVariable>,
) -> Result<Seq<VarId>, NoMemory>
    requires variables { variables.now ≡ map (left_variable model.now) (left model.now annot.now) }
    ensures { IfOk result (λ list. list ≡ map (λ v. record { at = v }) (leader_own model.now annot.now)) }
{
    let mut list = Seq::new(alloc);
    for at in 0..variables.len() {
        let v = variables.get(at).variable;
        if leader_owns(model, annot, v) {
            list.push(v)?;
        }
    }
    Ok(list)
}
