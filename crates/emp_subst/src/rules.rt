//! The constraints of blocks and of the leader.
ghost use Rattle.std.specs.Prelude.{◌≡◌, ◌<◌, All, ◌++◌, map, filter, length, OnOk, IfOk};
ghost use Rattle.emp_ast.specs.Parties.{leader, listed_equations, block_variables, names_variable, block_equations, is_constraint, constraints};
ghost use Rattle.emp_owner.specs.Finding.{is_entry};
ghost use Rattle.emp_owner.specs.Settled.{IsDefinition};
ghost use Rattle.emp_problem.specs.ProblemOf.{IsRuleFor, AreRulesFor};
ghost use Rattle.emp_subst.specs.Stages.{AreDifferences, is_rest};

use crate::terms::linear_part;
use emp_ast::annot::{Annot, Block};
use emp_ast::model::Model;
use emp_ast::tree::{EquId, VarId};
use emp_list::memory::NoMemory;
use emp_list::seq::Seq;
use emp_owner::blocks::{has_function, owns, some_has};
use emp_poly::quad::Quad;
use emp_problem::problem::Rule;
use std::alloc::{AllocError, Global};

/// Whether the entry is the equation.
fn is_entry(entry: Option<EquId>, e: EquId) -> bool
    ensures { result ≡ is_entry entry e.at }
{
    match entry {
        Some(d) => d.at == e.at,
        None => false,
    }
}

/// Whether the equation is a constraint of the leader.
pub fn leader_constrains(model: &Model, annot: &Annot, definition: Option<EquId>, e: EquId) -> bool
    requires within { e.at < length model.now.equations }
    requires definition { IsDefinition model.now annot.now leader definition }
    ensures { result ≡ is_constraint model.now annot.now leader e.at }
{
    !is_entry(definition, e) && !some_has(annot, e)
}

/// The leader's constraints, in order of declaration.
#[tactic(auto, using(crate::proofs::Constraints::leading))]
pub fn leader_constraints(
    alloc: Global,
    model: &Model,
    annot: &Annot,
    definition: Option<EquId>,
) -> Result<Seq<EquId>, NoMemory>
    requires equations { length model.now.equations < 4294967296 }
    requires definition { IsDefinition model.now annot.now leader definition }
    ensures { IfOk result (λ list. list ≡ constraints model.now annot.now leader) }
{
    let mut list = Seq::new(alloc);
    for at in 0..model.equations.len() {
        let e = EquId { at: at as u32 };
        if leader_constrains(model, annot, definition, e) {
            list.push(e)?;
        }
    }
    Ok(list)
}

/// Puts the functions of the pairs at the end.
#[tactic(auto, using(crate::proofs::Putting::putting))]
fn put_functions(list: &mut Seq<EquId>, pairs: &Seq<(EquId, VarId)>) -> Result<(), AllocError>
    ensures { OnOk result (list.new ≡ list.old ++ map (λ q. q.0) pairs.now) }
{
    for at in 0..pairs.len() {
        list.push(pairs.get(at).0)?;
    }
    Ok(())
}

/// Puts the equations at the end.
#[tactic(auto, using(crate::proofs::Putting::putting))]
fn put_equations(list: &mut Seq<EquId>, equs: &Seq<EquId>) -> Result<(), AllocError>
    ensures { OnOk result (list.new ≡ list.old ++ equs.now) }
{
    for at in 0..equs.len() {
        list.push(*equs.get(at))?;
    }
    Ok(())
}

/// Puts the equations that the block lists at the end.
fn put_listed(list: &mut Seq<EquId>, block: &Block) -> Result<(), AllocError>
    ensures { OnOk result (list.new ≡ list.old ++ listed_equations block.now) }
{
    match block {
        Block::Agent { equs, .. } => put_equations(list, equs),
        Block::Vi { pairs, equs, .. } => {
            put_functions(list, pairs)?;
            put_equations(list, equs)
        }
    }
}

/// Puts the equations of the implicit variables that the block owns at the end.
#[tactic(auto, using(crate::proofs::Putting::putting))]
fn put_tied(list: &mut Seq<EquId>, annot: &Annot, block: &Block) -> Result<(), AllocError>
    ensures { OnOk result (list.new ≡ list.old ++ map (λ i. i.1) (filter (λ i. names_variable (block_variables block.now) i.0.at) annot.now.implicits)) }
{
    for at in 0..annot.implicits.len() {
        let pair = *annot.implicits.get(at);
        if owns(block, pair.0) {
            list.push(pair.1)?;
        }
    }
    Ok(())
}

/// The block's equations, in its order.
fn equations_of(alloc: Global, annot: &Annot, block: &Block) -> Result<Seq<EquId>, NoMemory>
    ensures { IfOk result (λ list. list ≡ block_equations annot.now block.now) }
{
    let mut list = Seq::new(alloc);
    put_listed(&mut list, block)?;
    put_tied(&mut list, annot, block)?;
    Ok(list)
}

/// Whether the equation is neither the definition nor the function of a pair of the block.
fn is_rest(block: &Block, definition: Option<EquId>, e: EquId) -> bool
    ensures { result ≡ is_rest block.now definition e.at }
{
    !is_entry(definition, e) && !has_function(block, e)
}

/// Those of the equations that are neither the definition nor the function of a pair of the block, in their order.
#[tactic(auto, using(crate::proofs::Putting::putting))]
fn rest_of(
    alloc: Global,
    block: &Block,
    definition: Option<EquId>,
    equations: &Seq<EquId>,
) -> Result<Seq<EquId>, NoMemory>
    ensures { IfOk result (λ list. list ≡ filter (λ e. is_rest block.now definition e.at) equations.now) }
{
    let mut list = Seq::new(alloc);
    for at in 0..equations.len() {
        let e = *equations.get(at);
        if is_rest(block, definition, e) {
            list.push(e)?;
        }
    }
    Ok(list)
}

/// The block's constraints, in its order, by the equation that defines its objective.
pub fn block_constraints(
    alloc: Global,
    annot: &Annot,
    block: &Block,
    definition: Option<EquId>,
) -> Result<Seq<EquId>, NoMemory>
    ensures { IfOk result (λ list. list ≡ filter (λ e. is_rest block.now definition e.at) (block_equations annot.now block.now)) }
{
    let equations = equations_of(alloc, annot, block)?;
    rest_of(alloc, block, definition, &equations)
}

/// The constraint of an equation.
#[tactic(auto, using(crate::proofs::Constraints::is_rule))]
fn rule_of(alloc: Global, model: &Model, differences: &[Quad], e: EquId) -> Result<Rule, NoMemory>
    requires within { e.at < length model.now.equations }
    requires differences { AreDifferences model.now differences.now }
    ensures { IfOk result (λ r. IsRuleFor model.now e r) }
{
    let row = linear_part(alloc, &differences[e.at as usize])?;
    Ok(Rule {
        equation: e,
        relation: model.equations.get(e.at as usize).relation,
        row,
    })
}

/// The constraints of these equations, in their order.
#[tactic(auto, using(crate::proofs::Constraints::ruling))]
pub fn rules_of(
    alloc: Global,
    model: &Model,
    differences: &[Quad],
    equations: &Seq<EquId>,
) -> Result<Seq<Rule>, NoMemory>
    requires within { All (λ e. e.at < length model.now.equations) equations.now }
    requires differences { AreDifferences model.now differences.now }
    ensures { IfOk result (λ list. AreRulesFor model.now equations.now list) }
{
    let mut list = Seq::new(alloc);
    for at in 0..equations.len() {
        list.push(rule_of(alloc, model, differences, *equations.get(at))?)?;
    }
    Ok(list)
}
