//! The parts of blocks and of the leader.
ghost use Rattle.std.specs.Prelude.{◌≡◌, ◌<◌, ◌++◌, ℕ, List, Option, Some, None, All, map, length, slice_get, IfOk, OnOk};
ghost use Rattle.emp_ast.specs.declared.model.Model.{Model};
ghost use Rattle.emp_ast.specs.declared.annot.Annot.{Annot};
ghost use Rattle.emp_ast.specs.Parties.{leader, block as the_block, constraints};
ghost use Rattle.emp_owner.specs.Settled.{IsDefinition, AreDefinitions, IsLeaderDefinition};
ghost use Rattle.emp_problem.specs.Left.{left};
ghost use Rattle.emp_problem.specs.ProblemOf.{left_variable, AreRulesFor, AreFlowsFor, IsPurposeFor, IsBlockFor, AreBlocksFor};
ghost use Rattle.emp_problem.specs.Class.{BlockFits, AnnotFits};
ghost use Rattle.emp_subst.specs.Stages.{AreDifferences, EntryFits, PairsFit, LeaderGoalGives, LeaderGives};

use crate::fault::SubstFault;
use crate::goals::{given, goal};
use crate::lefts::{leader_own, own_of};
use crate::quadratic::first_square;
use crate::rules::{block_constraints, leader_constraints, rules_of};
use crate::terms::{linear_part, nothing};
use emp_ast::annot::{Annot, Block};
use emp_ast::model::{Model, Sense};
use emp_ast::tree::{EquId, VarId};
use emp_list::memory::NoMemory;
use emp_list::seq::Seq;
use emp_poly::quad::{Lin, Quad};
use emp_problem::problem::{BlockPart, LeaderPart, LeftVariable, Purpose, Rule};
use std::alloc::{AllocError, Global};

/// Puts the function 0 of each variable at the end.
#[tactic(auto, using(crate::proofs::Flows::flowing))]
fn put_zeros(alloc: Global, list: &mut Seq<Lin>, zeros: &Seq<VarId>) -> Result<(), AllocError>
    ensures { OnOk result ((m : Model) (gs : List (Option ℕ)) → AreFlowsFor m gs list.old → AreFlowsFor m (gs ++ map (λ z. None) zeros.now) list.new) }
{
    for _ in 0..zeros.len() {
        list.push(nothing(alloc))?;
    }
    Ok(())
}

/// Puts the function of each pair at the end.
#[tactic(auto, using(crate::proofs::Flows::flowing))]
fn put_flows(
    alloc: Global,
    list: &mut Seq<Lin>,
    differences: &[Quad],
    pairs: &Seq<(EquId, VarId)>,
) -> Result<(), NoMemory>
    requires within { All (λ q. q.0.at < length differences.now) pairs.now }
    ensures { OnOk result ((m : Model) (gs : List (Option ℕ)) → AreDifferences m differences.now → AreFlowsFor m gs list.old → AreFlowsFor m (gs ++ map (λ q. Some q.0.at) pairs.now) list.new) }
{
    for at in 0..pairs.len() {
        let e = pairs.get(at).0;
        list.push(linear_part(alloc, &differences[e.at as usize])?)?;
    }
    Ok(())
}

/// The functions of a variational inequality, one for each own variable.
fn flow(
    alloc: Global,
    differences: &[Quad],
    zeros: &Seq<VarId>,
    pairs: &Seq<(EquId, VarId)>,
) -> Result<Seq<Lin>, NoMemory>
    requires within { All (λ q. q.0.at < length differences.now) pairs.now }
    ensures { IfOk result (λ list. (m : Model) → AreDifferences m differences.now → AreFlowsFor m (map (λ z. None) zeros.now ++ map (λ q. Some q.0.at) pairs.now) list) }
{
    let mut list = Seq::new(alloc);
    put_zeros(alloc, &mut list, zeros)?;
    put_flows(alloc, &mut list, differences, pairs)?;
    Ok(list)
}

/// What the block wants.
fn purpose(
    alloc: Global,
    differences: &[Quad],
    block: &Block,
    definition: Option<EquId>,
) -> Result<Purpose, NoMemory>
    requires pairs { PairsFit (length differences.now) block.now }
    requires entry { EntryFits (length differences.now) definition }
    ensures { IfOk result (λ p. (m : Model) (a : Annot) (k : ℕ) → AreDifferences m differences.now → slice_get a.blocks k ≡ Some block.now → IsDefinition m a (the_block k) definition → IsPurposeFor m a k block.now p) }
{
    match block {
        Block::Agent {
            sense,
            objective,
            ..
        } => {
            let given = given(alloc, differences, definition, *objective)?;
            let goal = goal(alloc, *sense, &given)?;
            Ok(Purpose::Goal(goal))
        }
        Block::Vi { zeros, pairs, .. } => {
            let flow = flow(alloc, differences, zeros, pairs)?;
            Ok(Purpose::Flow(flow))
        }
    }
}

/// The constraints of the block.
fn block_rules(
    alloc: Global,
    model: &Model,
    annot: &Annot,
    differences: &[Quad],
    block: &Block,
    definition: Option<EquId>,
) -> Result<Seq<Rule>, NoMemory>
    requires fits { AnnotFits model.now annot.now }
    requires block { BlockFits (length model.now.variables) (length model.now.equations) block.now }
    requires differences { AreDifferences model.now differences.now }
    ensures { IfOk result (λ list. (k : ℕ) → slice_get annot.now.blocks k ≡ Some block.now → IsDefinition model.now annot.now (the_block k) definition → AreRulesFor model.now (constraints model.now annot.now (the_block k)) list) }
{
    let equations = block_constraints(alloc, annot, block, definition)?;
    rules_of(alloc, model, differences, &equations)
}

/// The part of one block.
fn block_part(
    alloc: Global,
    model: &Model,
    annot: &Annot,
    differences: &[Quad],
    block: &Block,
    definition: Option<EquId>,
) -> Result<BlockPart, NoMemory>
    requires fits { AnnotFits model.now annot.now }
    requires block { BlockFits (length model.now.variables) (length model.now.equations) block.now }
    requires differences { AreDifferences model.now differences.now }
    requires entry { EntryFits (length model.now.equations) definition }
    ensures { IfOk result (λ p. (k : ℕ) → slice_get annot.now.blocks k ≡ Some block.now → IsDefinition model.now annot.now (the_block k) definition → IsBlockFor model.now annot.now k block.now p) }
{
    let own = own_of(alloc, block, definition)?;
    let purpose = purpose(alloc, differences, block, definition)?;
    let rules = block_rules(alloc, model, annot, differences, block, definition)?;
    Ok(BlockPart {
        own,
        purpose,
        rules,
    })
}

/// The parts of all blocks, in their order.
pub fn block_parts(
    alloc: Global,
    model: &Model,
    annot: &Annot,
    differences: &[Quad],
    defined: &Seq<Option<EquId>>,
) -> Result<Seq<BlockPart>, NoMemory>
    requires fits { AnnotFits model.now annot.now }
    requires differences { AreDifferences model.now differences.now }
    requires defined { AreDefinitions model.now annot.now defined.now }
    ensures { IfOk result (λ list. AreBlocksFor model.now annot.now 0 annot.now.blocks list) }
{
    let mut list = Seq::new(alloc);
    for at in 0..annot.blocks.len() {
        let block = annot.blocks.get(at);
        list.push(block_part(alloc, model, annot, differences, block, *defined.get(at))?)?;
    }
    Ok(list)
}

/// The leader's objective, where it is linear.
fn leader_goal(
    alloc: Global,
    differences: &[Quad],
    objective: Option<(Sense, VarId)>,
    definition: Option<EquId>,
) -> Result<Lin, SubstFault>
    requires entry { EntryFits (length differences.now) definition }
    ensures { (m : Model) (a : Annot) → m.goal ≡ objective → AreDifferences m differences.now → IsDefinition m a leader definition → LeaderGoalGives m a result }
{
    let Some((sense, w)) = objective else {
        return Ok(nothing(alloc));
    };
    let given = given(alloc, differences, definition, w)?;
    if let Some((u, v)) = first_square(&given) {
        return Err(SubstFault::LeaderNotLinear(u, v));
    }
    let goal = goal(alloc, sense, &given)?;
    let lin = linear_part(alloc, &goal)?;
    Ok(lin)
}

/// The constraints of the leader.
fn leader_rules(
    alloc: Global,
    model: &Model,
    annot: &Annot,
    differences: &[Quad],
    definition: Option<EquId>,
) -> Result<Seq<Rule>, NoMemory>
    requires equations { length model.now.equations < 4294967296 }
    requires differences { AreDifferences model.now differences.now }
    requires definition { IsDefinition model.now annot.now leader definition }
    ensures { IfOk result (λ list. AreRulesFor model.now (constraints model.now annot.now leader) list) }
{
    let equations = leader_constraints(alloc, model, annot, definition)?;
    rules_of(alloc, model, differences, &equations)
}

/// The leader's part in a bilevel file.
pub fn leader_part(
    alloc: Global,
    model: &Model,
    annot: &Annot,
    differences: &[Quad],
    definition: Option<EquId>,
    variables: &Seq<LeftVariable>,
) -> Result<Option<LeaderPart>, SubstFault>
    requires equations { length model.now.equations < 4294967296 }
    requires differences { AreDifferences model.now differences.now }
    requires definition { IsLeaderDefinition model.now annot.now annot.now.bilevel definition }
    requires variables { variables.now ≡ map (left_variable model.now) (left model.now annot.now) }
    ensures { LeaderGives model.now annot.now result }
{
    if !annot.bilevel {
        return Ok(None);
    }
    let goal = leader_goal(alloc, differences, model.goal, definition)?;
    let own = leader_own(alloc, model, annot, variables)?;
    let rules = leader_rules(alloc, model, annot, differences, definition)?;
    Ok(Some(LeaderPart { own, goal, rules }))
}
