//! Which equation defines the objective of a party.
ghost use Rattle.std.specs.Prelude.{◌≡◌, ◌<◌, ◌&&◌, nat_eq, false, length, get_or, slice_get, IfOk, Some};
ghost use Rattle.emp_ast.specs.Parties.{is_open, has_no_bound, ties, holders, leader};
ghost use Rattle.emp_owner.specs.NodeLeaves.{AreCounts};
ghost use Rattle.emp_owner.specs.Finding.{may_be_defined, may_define, FindsAlone, FindsLeft, IsBlockDefinition, AreAlone};
ghost use Rattle.emp_owner.specs.Settled.{IsDefinition, IsLeaderDefinition, AreDefinitions};

use crate::blocks::{one_has, some_has};
use crate::leaves::is_summand_of;
use crate::listed::{pairs_equation, pairs_variable};
use emp_ast::annot::{Annot, Block};
use emp_ast::model::{End, Equation, Model, Relation};
use emp_ast::tree::{EquId, VarId};
use emp_list::memory::NoMemory;
use emp_list::seq::Seq;
use std::alloc::Global;

/// Whether the end of a range is none.
fn is_open(end: End) -> bool
    ensures { result ≡ is_open end }
{
    match end {
        End::Open => true,
        End::At(_) => false,
    }
}

/// Whether the variable has no finite bound.
fn has_no_bound(model: &Model, w: VarId) -> bool
    ensures { result ≡ has_no_bound (slice_get model.now.variables w.at) }
{
    match model.variables.as_slice().get(w.at as usize) {
        Some(variable) => is_open(variable.low) && is_open(variable.high),
        None => false,
    }
}

/// Whether the equation is an equality of which the variable is a summand.
fn ties_with(alloc: Global, equation: &Equation, w: VarId) -> Result<bool, NoMemory>
    ensures { IfOk result (λ b. b ≡ ties w.at (Some equation.now)) }
{
    if equation.relation == Relation::Equal {
        is_summand_of(alloc, equation, w)
    } else {
        Ok(false)
    }
}

/// Whether the equation is there and such.
fn ties(alloc: Global, model: &Model, e: EquId, w: VarId) -> Result<bool, NoMemory>
    ensures { IfOk result (λ b. b ≡ ties w.at (slice_get model.now.equations e.at)) }
{
    match model.equations.as_slice().get(e.at as usize) {
        Some(equation) => ties_with(alloc, equation, w),
        None => Ok(false),
    }
}

/// Whether the variable is a leaf once, by the counts.
fn is_once(counts: &Seq<usize>, w: VarId) -> bool
    ensures { result ≡ nat_eq (get_or counts.now w.at 0) 1 }
{
    let at = w.at as usize;
    at < counts.len() && *counts.get(at) == 1
}

/// Whether the variable is such that an equation may define it.
#[tactic(auto, using(crate::proofs::Defining::counting))]
fn may_be_defined(model: &Model, annot: &Annot, counts: &Seq<usize>, w: VarId) -> bool
    requires counts { AreCounts (length model.now.variables) model.now.equations counts.now }
    ensures { result ≡ may_be_defined model.now annot.now w.at }
{
    has_no_bound(model, w) && !pairs_variable(&annot.duals, w) && is_once(counts, w)
}

/// Whether the equation is such that it may define the variable.
fn may_define(
    alloc: Global,
    model: &Model,
    annot: &Annot,
    w: VarId,
    e: EquId,
) -> Result<bool, NoMemory>
    ensures { IfOk result (λ b. b ≡ may_define model.now annot.now w.at e.at) }
{
    if pairs_equation(&annot.implicits, e) {
        Ok(false)
    } else {
        ties(alloc, model, e, w)
    }
}

/// For each equation whether exactly one block has it.
fn alone_table(alloc: Global, model: &Model, annot: &Annot) -> Result<Seq<bool>, NoMemory>
    requires equations { length model.now.equations < 4294967296 }
    ensures { IfOk result (λ list. AreAlone model.now annot.now list) }
{
    let mut list = Seq::new(alloc);
    for at in 0..model.equations.len() {
        list.push(one_has(annot, EquId { at: at as u32 }))?;
    }
    Ok(list)
}

/// Whether the equation is there and exactly one block has it, by the table.
fn is_alone(alone: &Seq<bool>, e: EquId) -> bool
    ensures { result ≡ get_or alone.now e.at false }
{
    let at = e.at as usize;
    at < alone.len() && *alone.get(at)
}

/// Whether the equation is such that it may define the variable, and exactly one block has it.
#[tactic(auto, using(crate::proofs::Defining::knowing))]
fn may_define_alone(
    alloc: Global,
    model: &Model,
    annot: &Annot,
    alone: &Seq<bool>,
    w: VarId,
    e: EquId,
) -> Result<bool, NoMemory>
    requires alone { AreAlone model.now annot.now alone.now }
    ensures { IfOk result (λ b. b ≡ (may_define model.now annot.now w.at e.at && nat_eq (holders annot.now e.at) 1)) }
{
    if is_alone(alone, e) {
        may_define(alloc, model, annot, w, e)
    } else {
        Ok(false)
    }
}

/// The first of the listed equations that may define the variable and that exactly one block has.
#[tactic(auto, using(crate::proofs::Lists::searching))]
fn find_alone(
    alloc: Global,
    model: &Model,
    annot: &Annot,
    alone: &Seq<bool>,
    w: VarId,
    equs: &Seq<EquId>,
) -> Result<Option<EquId>, NoMemory>
    requires alone { AreAlone model.now annot.now alone.now }
    ensures { IfOk result (λ o. FindsAlone model.now annot.now w.at equs.now o) }
{
    for at in 0..equs.len() {
        let e = *equs.get(at);
        if may_define_alone(alloc, model, annot, alone, w, e)? {
            return Ok(Some(e));
        }
    }
    Ok(None)
}

/// The equation that defines the objective of the block.
#[tactic(auto, using(crate::proofs::Defining::defining))]
fn block_definition(
    alloc: Global,
    model: &Model,
    annot: &Annot,
    counts: &Seq<usize>,
    alone: &Seq<bool>,
    block: &Block,
) -> Result<Option<EquId>, NoMemory>
    requires counts { AreCounts (length model.now.variables) model.now.equations counts.now }
    requires alone { AreAlone model.now annot.now alone.now }
    ensures { IfOk result (λ o. IsBlockDefinition model.now annot.now block.now o) }
{
    match block {
        Block::Agent {
            objective,
            equs,
            ..
        } => {
            if may_be_defined(model, annot, counts, *objective) {
                find_alone(alloc, model, annot, alone, *objective, equs)
            } else {
                Ok(None)
            }
        }
        Block::Vi { .. } => Ok(None),
    }
}

/// The definitions of all blocks, in their order.
pub fn block_definitions(
    alloc: Global,
    model: &Model,
    annot: &Annot,
    counts: &Seq<usize>,
) -> Result<Seq<Option<EquId>>, NoMemory>
    requires equations { length model.now.equations < 4294967296 }
    requires counts { AreCounts (length model.now.variables) model.now.equations counts.now }
    ensures { IfOk result (λ list. AreDefinitions model.now annot.now list) }
{
    let alone = alone_table(alloc, model, annot)?;
    let mut list = Seq::new(alloc);
    for at in 0..annot.blocks.len() {
        list.push(block_definition(alloc, model, annot, counts, &alone, annot.blocks.get(at))?)?;
    }
    Ok(list)
}

/// The first of the equations that no block has and that may define the variable.
#[tactic(auto, using(crate::proofs::Lists::searching))]
fn find_left(
    alloc: Global,
    model: &Model,
    annot: &Annot,
    w: VarId,
) -> Result<Option<EquId>, NoMemory>
    requires equations { length model.now.equations < 4294967296 }
    ensures { IfOk result (λ o. FindsLeft model.now annot.now w.at o) }
{
    for at in 0..model.equations.len() {
        let e = EquId { at: at as u32 };
        if !some_has(annot, e) && may_define(alloc, model, annot, w, e)? {
            return Ok(Some(e));
        }
    }
    Ok(None)
}

/// The equation that defines the objective of the solve statement.
#[tactic(auto, using(crate::proofs::Defining::defining))]
fn goal_definition(
    alloc: Global,
    model: &Model,
    annot: &Annot,
    counts: &Seq<usize>,
) -> Result<Option<EquId>, NoMemory>
    requires equations { length model.now.equations < 4294967296 }
    requires counts { AreCounts (length model.now.variables) model.now.equations counts.now }
    ensures { IfOk result (λ o. IsDefinition model.now annot.now leader o) }
{
    match model.goal {
        Some((_, w)) => {
            if may_be_defined(model, annot, counts, w) {
                find_left(alloc, model, annot, w)
            } else {
                Ok(None)
            }
        }
        None => Ok(None),
    }
}

/// The equation that defines the leader's objective in a bilevel file.
pub fn leader_definition(
    alloc: Global,
    model: &Model,
    annot: &Annot,
    counts: &Seq<usize>,
) -> Result<Option<EquId>, NoMemory>
    requires equations { length model.now.equations < 4294967296 }
    requires counts { AreCounts (length model.now.variables) model.now.equations counts.now }
    ensures { IfOk result (λ o. IsLeaderDefinition model.now annot.now annot.now.bilevel o) }
{
    if annot.bilevel {
        goal_definition(alloc, model, annot, counts)
    } else {
        Ok(None)
    }
}
