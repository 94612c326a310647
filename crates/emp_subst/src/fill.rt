//! The way back of a point.
ghost use Rattle.std.specs.Prelude.{◌≡◌, ◌<◌, ◌≤◌, false, ℕ, length, Some, IfOk};
ghost use Rattle.emp_ast.specs.Parties.{block_objective, goal_objective, is_defined, some_block_defines};
ghost use Rattle.emp_form.specs.Calls.{Formula, given};
ghost use Rattle.emp_owner.specs.Settled.{AreDefinitions, AreOwned, IsLeaderDefinition};
ghost use Rattle.emp_poly.specs.Written.{linear_from, entry, written_value, LinearWithin, SquareWithin, IsWithin};
ghost use Rattle.emp_problem.specs.Class.{IsClassFile};
ghost use Rattle.emp_problem.specs.ProblemOf.{IsProblemOf};
ghost use Rattle.emp_problem.specs.declared.problem.Purpose.TheVariants.{Goal};
ghost use Rattle.emp_poly.specs.declared.quad.Quad.{Quad};
ghost use Rattle.emp_subst.specs.Fill.{spread, FillGives};
ghost use Rattle.emp_subst.specs.Filling.{FoldGives, IsTurned, TurnedGives, sense_by, FindsBlock, FindsLeader, ValueGives, ValuesGive};

use crate::fault::FillFault;
use crate::goals::is_max;
use crate::lefts::{is_defined, is_some};
use crate::terms::as_quad;
use emp_ast::annot::{Annot, Block};
use emp_ast::model::{Model, Sense};
use emp_ast::tree::{EquId, VarId};
use emp_expand::coefficients::zero;
use emp_list::memory::NoMemory;
use emp_list::seq::Seq;
use emp_num::frac::Frac;
use emp_owner::owned::Owned;
use emp_poly::quad::{Lin, Quad};
use emp_poly::value::at;
use emp_problem::problem::{AgentProblem, BlockPart, LeaderPart, Purpose};
use std::alloc::Global;

/// The value at a place, 0 where there is none.
fn entry(values: &[Frac], at: usize) -> Frac
    ensures { result ≡ entry values.now at }
{
    if at < values.len() {
        values[at]
    } else {
        zero()
    }
}

/// The values by all variables, with 0 for each that an equation defines.
pub fn spread(
    alloc: Global,
    model: &Model,
    annot: &Annot,
    owned: &Owned,
    values: &[Frac],
) -> Result<Seq<Frac>, NoMemory>
    requires variables { length model.now.variables < 4294967296 }
    requires owned { AreOwned model.now annot.now owned.now }
    ensures { IfOk result (λ list. list ≡ spread model.now annot.now values.now) }
{
    let mut list = Seq::new(alloc);
    let mut next = 0;
    for at in 0..model.variables.len() {
        if is_defined(model, annot, owned, VarId { at: at as u32 }) {
            list.push(zero())?;
        } else {
            list.push(entry(values, next))?;
            next += 1;
        }
    }
    Ok(list)
}

/// How many variables the linear terms reach.
#[tactic(auto, using(crate::proofs::Folding::reaching))]
fn linear_reach(terms: &[(VarId, Frac)], least: usize) -> usize
    ensures reach { LinearWithin result terms.now }
    ensures least { least ≤ result }
{
    let mut reach = least;
    for k in 0..terms.len() {
        reach = reach.max(terms[k].0.at as usize + 1);
    }
    reach
}

/// How many variables the quadratic terms reach.
#[tactic(auto, using(crate::proofs::Folding::reaching))]
fn square_reach(terms: &[(VarId, VarId, Frac)], least: usize) -> usize
    ensures reach { SquareWithin result terms.now }
    ensures least { least ≤ result }
{
    let mut reach = least;
    for k in 0..terms.len() {
        reach = reach
            .max(terms[k].0.at as usize + 1)
            .max(terms[k].1.at as usize + 1);
    }
    reach
}

/// The values with 0 at the end, so that there are so many.
#[tactic(auto, using(crate::proofs::Folding::entry_pad))]
fn padded(alloc: Global, values: &[Frac], count: usize) -> Result<Seq<Frac>, NoMemory>
    ensures { IfOk result (λ list. (count ≤ length list) × ((k : ℕ) → entry list k ≡ entry values.now k)) }
{
    let mut list = Seq::of_slice(alloc, values)?;
    for _ in values.len()..count {
        list.push(zero())?;
    }
    Ok(list)
}

/// The fold of the polynomial at the values, which are 0 past their end.
fn fold(alloc: Global, quad: &Quad, values: &[Frac], variable: VarId) -> Result<Frac, FillFault>
    ensures { FoldGives (written_value quad.now values.now) variable result }
{
    let reach = square_reach(
        quad.square.as_slice(),
        linear_reach(quad.linear.as_slice(), 0),
    );
    let point = padded(alloc, values, reach)?;
    match at(quad, point.as_slice()) {
        Ok(value) => Ok(value),
        Err(_) => Err(FillFault::Wide(variable)),
    }
}

/// The value, or its opposite where the objective is to be greatest.
fn turned(sense: Sense, value: Frac) -> Frac
    ensures { IsTurned sense value result }
{
    if is_max(sense) {
        Frac::neg(value)
    } else {
        value
    }
}

/// The value of a block's defined objective.
fn block_value(
    alloc: Global,
    sense: Sense,
    part: &BlockPart,
    values: &[Frac],
    v: VarId,
) -> Result<Frac, FillFault>
    requires goal { (q : Quad) × (part.now.purpose ≡ Goal q) }
    ensures { (q : Quad) → part.now.purpose ≡ Goal q → TurnedGives sense (written_value q values.now) v result }
{
    match &part.purpose {
        Purpose::Goal(quad) => {
            let value = fold(alloc, quad, values, v)?;
            Ok(turned(sense, value))
        }
        Purpose::Flow(_) => unreachable!(),
    }
}

/// The value of the leader's defined objective.
fn leader_value(
    alloc: Global,
    sense: Sense,
    part: &LeaderPart,
    values: &[Frac],
    v: VarId,
) -> Result<Frac, FillFault>
    ensures { TurnedGives sense (linear_from (given part.now.goal.constant) part.now.goal.linear values.now) v result }
{
    let quad = as_quad(alloc, &part.goal)?;
    let value = fold(alloc, &quad, values, v)?;
    Ok(turned(sense, value))
}

/// Whether the objective of the block, which has a definition, is to be least or greatest: none where it is another variable.
fn solved_sense(block: &Block, definition: Option<EquId>, v: VarId) -> Option<Sense>
    ensures { result ≡ sense_by definition (block_objective (Some block.now)) v.at }
{
    match block {
        Block::Agent {
            sense,
            objective,
            ..
        } => {
            if objective.at == v.at && is_some(definition) {
                Some(*sense)
            } else {
                None
            }
        }
        Block::Vi { .. } => None,
    }
}

/// The block whose defined objective the variable is, and whether it is to be least or greatest.
#[tactic(auto, using(crate::proofs::Defined::solving))]
fn block_of(
    model: &Model,
    annot: &Annot,
    defined: &Seq<Option<EquId>>,
    v: VarId,
) -> Option<(usize, Sense)>
    requires defined { AreDefinitions model.now annot.now defined.now }
    ensures { FindsBlock model.now annot.now v.at result }
{
    for at in 0..annot.blocks.len() {
        if let Some(sense) = solved_sense(annot.blocks.get(at), *defined.get(at), v) {
            return Some((at, sense));
        }
    }
    None
}

/// Whether the objective of the solve statement, which has a definition, is to be least or greatest: none where it is another
/// variable.
fn goal_sense(goal: Option<(Sense, VarId)>, definition: Option<EquId>, v: VarId) -> Option<Sense>
    ensures { result ≡ sense_by definition (goal_objective goal) v.at }
{
    match goal {
        Some((sense, w)) => {
            if w.at == v.at && is_some(definition) {
                Some(sense)
            } else {
                None
            }
        }
        None => None,
    }
}

/// The sense of the leader's objective, where it is this variable and has a definition in a bilevel file.
#[tactic(auto, using(crate::proofs::Senses::sensing))]
fn leader_of(model: &Model, annot: &Annot, definition: Option<EquId>, v: VarId) -> Option<Sense>
    requires definition { IsLeaderDefinition model.now annot.now annot.now.bilevel definition }
    ensures { FindsLeader model.now annot.now v.at result }
{
    if annot.bilevel {
        goal_sense(model.goal, definition, v)
    } else {
        None
    }
}

/// The value of a variable that is no defined objective of a block.
fn leader_or_left(
    alloc: Global,
    model: &Model,
    annot: &Annot,
    owned: &Owned,
    problem: &AgentProblem,
    values: &[Frac],
    v: VarId,
) -> Result<Frac, FillFault>
    requires owned { AreOwned model.now annot.now owned.now }
    requires problem { IsProblemOf model.now annot.now problem.now }
    requires none { some_block_defines model.now annot.now v.at (length annot.now.blocks) ≡ false }
    ensures { ValueGives model.now annot.now problem.now values.now v result }
{
    let left = entry(values, v.at as usize);
    let Some(sense) = leader_of(model, annot, owned.leader, v) else {
        return Ok(left);
    };
    let Some(part) = &problem.leader else {
        return Ok(left);
    };
    leader_value(alloc, sense, part, values, v)
}

/// The value of a variable: by its polynomial where it is a defined objective.
fn value_of(
    alloc: Global,
    model: &Model,
    annot: &Annot,
    owned: &Owned,
    problem: &AgentProblem,
    values: &[Frac],
    v: VarId,
) -> Result<Frac, FillFault>
    requires class { IsClassFile model.now annot.now }
    requires owned { AreOwned model.now annot.now owned.now }
    requires problem { IsProblemOf model.now annot.now problem.now }
    ensures { ValueGives model.now annot.now problem.now values.now v result }
{
    match block_of(model, annot, &owned.defined, v) {
        Some((at, sense)) => block_value(alloc, sense, problem.blocks.get(at), values, v),
        None => leader_or_left(alloc, model, annot, owned, problem, values, v),
    }
}

/// The values of all variables, in order of declaration.
fn values_of(
    alloc: Global,
    model: &Model,
    annot: &Annot,
    owned: &Owned,
    problem: &AgentProblem,
    values: &[Frac],
) -> Result<Seq<Frac>, FillFault>
    requires variables { length model.now.variables < 4294967296 }
    requires class { IsClassFile model.now annot.now }
    requires owned { AreOwned model.now annot.now owned.now }
    requires problem { IsProblemOf model.now annot.now problem.now }
    ensures { ValuesGive model.now annot.now problem.now values.now result }
{
    let mut list = Seq::new(alloc);
    for at in 0..model.variables.len() {
        let v = VarId { at: at as u32 };
        list.push(value_of(alloc, model, annot, owned, problem, values, v)?)?;
    }
    Ok(list)
}

/// The point of the file for values of the variables that are left, in their order: each variable that is left has its value,
/// and each defined objective what its polynomial gives. `Wide` exactly where the fold of a defined objective has a wide call:
/// the polynomial of the party is folded over the values with 0 for each defined objective, and it names the first such
/// objective in order of declaration.
pub fn fill(
    alloc: Global,
    model: &Model,
    annot: &Annot,
    owned: &Owned,
    problem: &AgentProblem,
    values: &[Frac],
) -> Result<Seq<Frac>, FillFault>
    requires variables { length model.now.variables < 4294967296 }
    requires class { IsClassFile model.now annot.now }
    requires owned { AreOwned model.now annot.now owned.now }
    requires problem { IsProblemOf model.now annot.now problem.now }
    requires values { length values.now ≡ length problem.now.variables }
    ensures { FillGives model.now annot.now problem.now values.now result }
{
    let point = spread(alloc, model, annot, owned, values)?;
    values_of(alloc, model, annot, owned, problem, point.as_slice())
}
