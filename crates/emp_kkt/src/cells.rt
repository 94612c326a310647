//! Coefficients of what is asked, as fractions.
ghost use Rattle.std.specs.Prelude.{◌≡◌, ◌<◌, Ok, length, nat_eq, IfOk};
ghost use Rattle.emp_num.specs.Whole.{whole};
ghost use Rattle.emp_poly.specs.Quads.{linear_at, square_at};
ghost use Rattle.emp_kkt.specs.Items.{part_at, own_at, rule_at, leader_rules, leader_goal};
ghost use Rattle.emp_kkt.specs.Cells.{unit_frac, signed_frac, lin_cell, TwiceGives, PartialGives, PurposeGives, StartGives, RuleBy, ChargesGive, SlopeGives, CellGives, purpose_constant, slope_constant, constant_of};
ghost use Rattle.emp_kkt.specs.Making.{IsLayout, ItemFits, PurposeFits, bases_of, AreBases};
ghost use Rattle.emp_kkt.specs.declared.asked.Item.TheVariants.{Slope as ASlope, Raised as ARaised};

use crate::asked::Item;
use crate::extras::{Extra, multiplier_base};
use emp_ast::tree::VarId;
use emp_expand::coefficients::zero;
use emp_list::seq::Seq;
use emp_num::exact::Wide;
use emp_num::frac::Frac;
use emp_poly::gradient::{linear_of, square_of};
use emp_poly::quad::{Lin, Quad};
use emp_problem::problem::{AgentProblem, BlockPart, Purpose, Rule};
use std::alloc::{AllocError, Global};

// ---- fractions
/// The number 1.
fn one() -> Frac
    ensures { result ≡ whole 1 }
{
    Frac::reduced(1, 1)
}

/// The number 2.
fn two() -> Frac
    ensures { result ≡ whole 2 }
{
    Frac::reduced(2, 1)
}

/// 1 at the place, and 0 at each other.
fn unit(at: usize, of: usize) -> Frac
    ensures { result ≡ unit_frac of at }
{
    if at == of { one() } else { zero() }
}

/// The fraction, or its opposite.
#[tactic(auto, using(crate::proofs::Turning::turning))]
fn signed(turned: bool, value: Frac) -> Frac
    ensures { result ≡ signed_frac turned value }
{
    if turned { Frac::neg(value) } else { value }
}

// ---- derivatives
/// The coefficient of the product of two variables, the first not after the second.
#[tactic(auto, using(crate::proofs::Turning::reading))]
fn product_of(terms: &[(VarId, VarId, Frac)], first: u32, second: u32) -> Frac
    ensures { result ≡ square_at terms.now first second }
{
    for at in 0..terms.len() {
        if terms[at].0.at == first && terms[at].1.at == second {
            return terms[at].2;
        }
    }
    zero()
}

/// Twice the fraction.
fn twice(value: Frac) -> Result<Frac, Wide>
    ensures { TwiceGives value result }
{
    Frac::mul(two(), value)
}

/// The coefficient of a variable in the derivative by another.
fn partial(quad: &Quad, by: u32, at: u32) -> Result<Frac, Wide>
    ensures { PartialGives quad.now by at result }
{
    if at == by {
        return twice(square_of(quad.square.as_slice(), VarId { at: by }));
    }
    if at < by {
        Ok(product_of(quad.square.as_slice(), at, by))
    } else {
        Ok(product_of(quad.square.as_slice(), by, at))
    }
}

/// The coefficient of a variable in what a block wants by its own variable.
fn purpose_cell(purpose: &Purpose, own: usize, by: u32, at: u32) -> Result<Frac, Wide>
    requires { PurposeFits purpose.now own }
    ensures { PurposeGives purpose.now own by at result }
{
    match purpose {
        Purpose::Goal(quad) => partial(quad, by, at),
        Purpose::Flow(functions) => {
            Ok(linear_of(functions.get(own).linear.as_slice(), VarId { at }))
        }
    }
}

/// The coefficient of a base variable there; 0 of those that are no variables of the file.
fn start_cell(problem: &AgentProblem, part: &BlockPart, own: usize, at: usize) -> Result<Frac, Wide>
    requires own { own < length part.now.own }
    requires purpose { PurposeFits part.now.purpose own }
    ensures { StartGives problem.now part.now own at result }
{
    if at < problem.variables.len() {
        purpose_cell(
            &part.purpose,
            own,
            part.own.get(own).at,
            problem.variables.get(at).variable.at,
        )
    } else {
        Ok(zero())
    }
}

/// The coefficient less that of the rule's multiplier, where this is its base variable.
fn charge(rule: &Rule, base: usize, by: VarId, at: usize, cell: Frac) -> Result<Frac, Wide>
    ensures { RuleBy (nat_eq base at) (linear_at rule.now.row.linear by.at) cell result }
{
    if base == at {
        Frac::sub(cell, linear_of(rule.row.linear.as_slice(), by))
    } else {
        Ok(cell)
    }
}

/// The coefficient less those of all multipliers of the block, rule by rule; `bases` has their base variables.
#[tactic(auto, using(crate::proofs::Turning::charging))]
fn charged(
    problem: &AgentProblem,
    block: usize,
    bases: &[usize],
    rules: &[Rule],
    by: VarId,
    at: usize,
    start: Frac,
) -> Result<Frac, Wide>
    requires bases { bases.now ≡ bases_of problem.now block rules.now }
    ensures { ChargesGive problem.now block by.at at rules.now start result }
{
    let mut cell = start;
    for k in 0..rules.len() {
        cell = charge(&rules[k], bases[k], by, at, cell)?;
    }
    Ok(cell)
}

/// The coefficient of a base variable in the derivative with all multipliers.
#[tactic(auto, using(crate::proofs::Turning::sloping))]
fn slope_cell(
    problem: &AgentProblem,
    block: usize,
    bases: &[usize],
    part: &BlockPart,
    own: usize,
    at: usize,
) -> Result<Frac, Wide>
    requires bases { bases.now ≡ bases_of problem.now block part.now.rules }
    requires own { own < length part.now.own }
    requires purpose { PurposeFits part.now.purpose own }
    ensures { SlopeGives problem.now block part.now own at result }
{
    let start = start_cell(problem, part, own, at)?;
    let by = *part.own.get(own);
    charged(problem, block, bases, part.rules.as_slice(), by, at, start)
}

/// The coefficient so, or its opposite.
fn signed_slope_cell(
    problem: &AgentProblem,
    bases: &[usize],
    block: usize,
    own: usize,
    turned: bool,
    at: usize,
) -> Result<Frac, Wide>
    requires bases { AreBases problem.now (ASlope block own turned) bases.now }
    requires fits { ItemFits problem.now (ASlope block own turned) }
    ensures { CellGives problem.now (ASlope block own turned) at result }
{
    let part = problem.blocks.get(block);
    let cell = slope_cell(problem, block, bases, part, own, at)?;
    Ok(signed(turned, cell))
}

/// The coefficient of a base variable in the derivative plus another base variable.
fn raised_cell(
    problem: &AgentProblem,
    bases: &[usize],
    block: usize,
    own: usize,
    base: usize,
    at: usize,
) -> Result<Frac, Wide>
    requires bases { AreBases problem.now (ARaised block own base) bases.now }
    requires fits { ItemFits problem.now (ARaised block own base) }
    ensures { CellGives problem.now (ARaised block own base) at result }
{
    if at == base {
        return Ok(one());
    }
    let part = problem.blocks.get(block);
    slope_cell(problem, block, bases, part, own, at)
}

// ---- rows
/// The coefficient of a base variable in a linear function of the variables.
fn row_cell(problem: &AgentProblem, row: &Lin, at: usize) -> Frac
    ensures { result ≡ lin_cell problem.now row.now at }
{
    if at < problem.variables.len() {
        linear_of(row.linear.as_slice(), problem.variables.get(at).variable)
    } else {
        zero()
    }
}

/// The coefficient of a base variable in a rule of a block.
fn rule_cell(problem: &AgentProblem, block: usize, rule: usize, at: usize) -> Frac
    requires block { block < length problem.now.blocks }
    requires rule { rule < length (part_at problem.now block).rules }
    ensures { result ≡ lin_cell problem.now (rule_at (part_at problem.now block).rules rule).row at }
{
    row_cell(problem, &problem.blocks.get(block).rules.get(rule).row, at)
}

/// The coefficient of a base variable in a rule of the leader.
fn leader_cell(problem: &AgentProblem, rule: usize, at: usize) -> Frac
    requires { rule < length (leader_rules problem.now.leader) }
    ensures { result ≡ lin_cell problem.now (rule_at (leader_rules problem.now.leader) rule).row at }
{
    match &problem.leader {
        Some(part) => row_cell(problem, &part.rules.get(rule).row, at),
        None => unreachable!(),
    }
}

/// The coefficient of a base variable in the leader's objective, 0 where there is no leader.
#[tactic(auto, using(crate::proofs::Turning::leading))]
fn goal_cell(problem: &AgentProblem, at: usize) -> Frac
    ensures { result ≡ lin_cell problem.now (leader_goal problem.now.leader) at }
{
    match &problem.leader {
        Some(part) => row_cell(problem, &part.goal, at),
        None => zero(),
    }
}

// ---- items
/// The base variables of the multipliers of a block's rules.
#[tactic(auto, using(crate::proofs::Turning::listing))]
fn block_bases(
    alloc: Global,
    problem: &AgentProblem,
    extras: &[Extra],
    block: usize,
    part: &BlockPart,
) -> Result<Seq<usize>, AllocError>
    requires layout { IsLayout problem.now extras.now }
    ensures { IfOk result (λ out. out ≡ bases_of problem.now block part.now.rules) }
{
    let mut out = Seq::new(alloc);
    for at in 0..part.rules.len() {
        let equation = part.rules.get(at).equation.at;
        out.push(multiplier_base(problem, extras, block, equation))?;
    }
    Ok(out)
}

/// The base variables of the multipliers that an item charges.
pub fn item_bases(
    alloc: Global,
    problem: &AgentProblem,
    extras: &[Extra],
    item: Item,
) -> Result<Seq<usize>, AllocError>
    requires layout { IsLayout problem.now extras.now }
    requires fits { ItemFits problem.now item }
    ensures { IfOk result (AreBases problem.now item) }
{
    match item {
        Item::Slope(block, _, _) => {
            block_bases(alloc, problem, extras, block, problem.blocks.get(block))
        }
        Item::Raised(block, _, _) => {
            block_bases(alloc, problem, extras, block, problem.blocks.get(block))
        }
        _ => Ok(Seq::new(alloc)),
    }
}

/// The coefficient of a base variable, where `bases` has those of the multipliers that the item charges. `Wide` where a
/// number that is formed for it is.
pub fn item_cell(
    problem: &AgentProblem,
    bases: &[usize],
    item: Item,
    at: usize,
) -> Result<Frac, Wide>
    requires bases { AreBases problem.now item bases.now }
    requires fits { ItemFits problem.now item }
    ensures { CellGives problem.now item at result }
{
    match item {
        Item::Low(base, _) => Ok(unit(at, base)),
        Item::High(base, _) => Ok(signed(true, unit(at, base))),
        Item::Slope(block, own, turned) => {
            signed_slope_cell(problem, bases, block, own, turned, at)
        }
        Item::Raised(block, own, base) => { raised_cell(problem, bases, block, own, base, at) }
        Item::Row(block, rule, turned) => {
            Ok(signed(turned, rule_cell(problem, block, rule, at)))
        }
        Item::LeaderRow(rule, turned) => Ok(signed(turned, leader_cell(problem, rule, at))),
        Item::Goal => Ok(goal_cell(problem, at)),
        Item::Alone(base, turned) => Ok(signed(turned, unit(at, base))),
    }
}

// ---- constants
/// The constant of what a block wants by its own variable.
fn purpose_constant(purpose: &Purpose, own: usize, by: VarId) -> Frac
    requires { PurposeFits purpose.now own }
    ensures { result ≡ purpose_constant purpose.now own by.at }
{
    match purpose {
        Purpose::Goal(quad) => linear_of(quad.linear.as_slice(), by),
        Purpose::Flow(functions) => functions.get(own).constant,
    }
}

/// The constant of a derivative.
fn slope_constant(problem: &AgentProblem, block: usize, own: usize) -> Frac
    requires block { block < length problem.now.blocks }
    requires own { own < length (part_at problem.now block).own }
    requires purpose { PurposeFits (part_at problem.now block).purpose own }
    ensures { result ≡ slope_constant problem.now block own }
{
    let part = problem.blocks.get(block);
    purpose_constant(&part.purpose, own, *part.own.get(own))
}

/// The constant of a rule of a block.
fn rule_constant(problem: &AgentProblem, block: usize, rule: usize) -> Frac
    requires block { block < length problem.now.blocks }
    requires rule { rule < length (part_at problem.now block).rules }
    ensures { result ≡ (rule_at (part_at problem.now block).rules rule).row.constant }
{
    problem.blocks.get(block).rules.get(rule).row.constant
}

/// The constant of a rule of the leader.
fn leader_constant(problem: &AgentProblem, rule: usize) -> Frac
    requires { rule < length (leader_rules problem.now.leader) }
    ensures { result ≡ (rule_at (leader_rules problem.now.leader) rule).row.constant }
{
    match &problem.leader {
        Some(part) => part.rules.get(rule).row.constant,
        None => unreachable!(),
    }
}

/// The constant of the leader's objective, 0 where there is no leader.
fn goal_constant(problem: &AgentProblem) -> Frac
    ensures { result ≡ (leader_goal problem.now.leader).constant }
{
    match &problem.leader {
        Some(part) => part.goal.constant,
        None => zero(),
    }
}

/// The constant.
pub fn item_constant(problem: &AgentProblem, item: Item) -> Frac
    requires fits { ItemFits problem.now item }
    ensures { result ≡ constant_of problem.now item }
{
    match item {
        Item::Low(_, low) => signed(true, low),
        Item::High(_, high) => high,
        Item::Slope(block, own, turned) => signed(turned, slope_constant(problem, block, own)),
        Item::Raised(block, own, _) => slope_constant(problem, block, own),
        Item::Row(block, rule, turned) => signed(turned, rule_constant(problem, block, rule)),
        Item::LeaderRow(rule, turned) => signed(turned, leader_constant(problem, rule)),
        Item::Goal => goal_constant(problem),
        Item::Alone(_, _) => zero(),
    }
}
