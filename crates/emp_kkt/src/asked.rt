//! What is asked of the base variables.
ghost use Rattle.std.specs.Prelude.{◌≡◌, ◌<◌, ◌≤◌, ◌+◌, ◌++◌, ◌∷◌, [], length, IfOk, OnOk};
ghost use Rattle.emp_problem.specs.Problem.{place_of};
ghost use Rattle.emp_kkt.specs.Items.{range_asked, coordinate_asked, own_asked, rule_asked, one_rule_asked, rules_asked, blocks_asked, leader_range_asked, leader_own_asked, leader_rule_asked, leader_rules_asked, leader_asked, asked, items_one, items_of, kinds_one, asked_kinds, pairs_one, asked_pairs, own_at, rule_at};
ghost use Rattle.emp_ast.specs.declared.model.End.TheVariants.{At};
ghost use Rattle.emp_kkt.specs.Making.{IsLayout};

use crate::extras::{Extra, multiplier_base, range_base};
use crate::places::{holder_of, meet, place_of, range_of};
use emp_ast::model::{End, Relation};
use emp_ast::tree::VarId;
use emp_list::seq::Seq;
use emp_num::frac::Frac;
use emp_problem::problem::{AgentProblem, BlockPart, LeaderPart, Rule};
use emp_rows::system::Kind;
use std::alloc::{AllocError, Global};

/// An affine function of the base variables. Base variables, blocks, and the own variables and the rules of a block are
/// counted from 0.
#[derive(Clone, Copy, Debug)]
pub enum Item {
    /// A base variable less its lower bound.
    Low(usize, Frac),
    /// The upper bound less a base variable.
    High(usize, Frac),
    /// The derivative of what a block wants by an own variable, or its function, less the multipliers times the variable's
    /// coefficients in the block's rules; or the opposite.
    Slope(usize, usize, bool),
    /// The derivative so, plus a base variable.
    Raised(usize, usize, usize),
    /// Left minus right of a rule of a block, or the opposite.
    Row(usize, usize, bool),
    /// Left minus right of a rule of the leader, or the opposite.
    LeaderRow(usize, bool),
    /// The leader's objective.
    Goal,
    /// A base variable, or its opposite.
    Alone(usize, bool),
}

/// What a row point meets.
#[derive(Clone, Copy, Debug)]
pub enum Asked {
    /// The function is 0.
    ToBeZero(Item),
    /// It is at least 0.
    ToBeNonneg(Item),
    /// Both are at least 0, and one of them is 0.
    Pair(Item, Item),
}

/// An own variable of a block, at its place, and the base variable of its range.
#[derive(Clone, Copy)]
struct Coordinate {
    block: usize,
    own: usize,
    place: usize,
    base: usize,
}

// ---- own variables
/// Puts what is asked of an own variable between two bounds at the end.
fn put_between(
    out: &mut Seq<Asked>,
    low: Frac,
    high: Frac,
    own: Coordinate,
) -> Result<(), AllocError>
    ensures { OnOk result (out.new ≡ out.old ++ range_asked (At low) (At high) own.place own.block own.own own.base) }
{
    if meet(low, high) {
        out.push(Asked::ToBeZero(Item::Low(own.place, low)))?;
        return Ok(());
    }
    out.push(Asked::Pair(
        Item::Raised(own.block, own.own, own.base),
        Item::Low(own.place, low),
    ))?;
    out.push(Asked::Pair(Item::Alone(own.base, false), Item::High(own.place, high)))?;
    Ok(())
}

/// Puts what is asked of an own variable with these bounds at the end.
fn put_range(out: &mut Seq<Asked>, low: End, high: End, own: Coordinate) -> Result<(), AllocError>
    ensures { OnOk result (out.new ≡ out.old ++ range_asked low high own.place own.block own.own own.base) }
{
    let slope = Item::Slope(own.block, own.own, false);
    match (low, high) {
        (End::Open, End::Open) => out.push(Asked::ToBeZero(slope)),
        (End::At(low), End::Open) => out.push(Asked::Pair(slope, Item::Low(own.place, low))),
        (End::Open, End::At(high)) => {
            out.push(Asked::Pair(
                Item::Slope(own.block, own.own, true),
                Item::High(own.place, high),
            ))
        }
        (End::At(low), End::At(high)) => put_between(out, low, high, own),
    }
}

/// Puts what is asked of a block's own variable at the end.
fn put_coordinate(
    out: &mut Seq<Asked>,
    problem: &AgentProblem,
    extras: &[Extra],
    block: usize,
    own: usize,
    variable: VarId,
) -> Result<(), AllocError>
    requires layout { IsLayout problem.now extras.now }
    ensures { OnOk result (out.new ≡ out.old ++ coordinate_asked problem.now block own (place_of problem.now variable)) }
{
    let place = place_of(problem.variables.as_slice(), variable);
    let (low, high) = range_of(problem.variables.as_slice(), place);
    let base = range_base(problem, extras, block, place);
    put_range(
        out,
        low,
        high,
        Coordinate {
            block,
            own,
            place,
            base,
        },
    )
}

/// Puts what is asked of a block's own variables at the end.
#[tactic(auto, using(crate::proofs::Putting::putting))]
fn put_own(
    out: &mut Seq<Asked>,
    problem: &AgentProblem,
    extras: &[Extra],
    block: usize,
    part: &BlockPart,
) -> Result<(), AllocError>
    requires layout { IsLayout problem.now extras.now }
    ensures { OnOk result (out.new ≡ out.old ++ own_asked problem.now block 0 part.now.own) }
{
    for at in 0..part.own.len() {
        put_coordinate(out, problem, extras, block, at, *part.own.get(at))?;
    }
    Ok(())
}

// ---- rules
/// What is asked of a rule of a block with this relation, where its multiplier is this base variable.
fn asked_of_rule(relation: Relation, block: usize, rule: usize, base: usize) -> Asked
    ensures { result ≡ rule_asked relation block rule base }
{
    match relation {
        Relation::Equal => Asked::ToBeZero(Item::Row(block, rule, false)),
        Relation::AtLeast => Asked::Pair(Item::Alone(base, false), Item::Row(block, rule, false)),
        Relation::AtMost => Asked::Pair(Item::Alone(base, true), Item::Row(block, rule, true)),
        Relation::Nothing => Asked::ToBeZero(Item::Alone(base, false)),
    }
}

/// Puts what is asked of a block's rule at the end, where the block is the first that has its multiplier.
fn put_rule(
    out: &mut Seq<Asked>,
    problem: &AgentProblem,
    extras: &[Extra],
    block: usize,
    at: usize,
    rule: &Rule,
) -> Result<(), AllocError>
    requires layout { IsLayout problem.now extras.now }
    ensures { OnOk result (out.new ≡ out.old ++ one_rule_asked problem.now block at rule.now) }
{
    if holder_of(problem, block, rule.equation.at) == block {
        let base = multiplier_base(problem, extras, block, rule.equation.at);
        out.push(asked_of_rule(rule.relation, block, at, base))?;
    }
    Ok(())
}

/// Puts what is asked of a block's rules at the end.
#[tactic(auto, using(crate::proofs::Putting::putting))]
fn put_rules(
    out: &mut Seq<Asked>,
    problem: &AgentProblem,
    extras: &[Extra],
    block: usize,
    part: &BlockPart,
) -> Result<(), AllocError>
    requires layout { IsLayout problem.now extras.now }
    ensures { OnOk result (out.new ≡ out.old ++ rules_asked problem.now block 0 part.now.rules) }
{
    for at in 0..part.rules.len() {
        put_rule(out, problem, extras, block, at, part.rules.get(at))?;
    }
    Ok(())
}

/// Puts what is asked of a block at the end.
#[tactic(auto, using(crate::proofs::Putting::putting))]
fn put_block(
    out: &mut Seq<Asked>,
    problem: &AgentProblem,
    extras: &[Extra],
    block: usize,
    part: &BlockPart,
) -> Result<(), AllocError>
    requires layout { IsLayout problem.now extras.now }
    ensures { OnOk result (out.new ≡ out.old ++ (own_asked problem.now block 0 part.now.own ++ rules_asked problem.now block 0 part.now.rules)) }
{
    put_own(out, problem, extras, block, part)?;
    put_rules(out, problem, extras, block, part)
}

/// Puts what is asked of all blocks at the end.
#[tactic(auto, using(crate::proofs::Putting::putting))]
fn put_blocks(
    out: &mut Seq<Asked>,
    problem: &AgentProblem,
    extras: &[Extra],
) -> Result<(), AllocError>
    requires layout { IsLayout problem.now extras.now }
    ensures { OnOk result (out.new ≡ out.old ++ blocks_asked problem.now 0 problem.now.blocks) }
{
    for at in 0..problem.blocks.len() {
        put_block(out, problem, extras, at, problem.blocks.get(at))?;
    }
    Ok(())
}

// ---- the leader
/// Puts what is asked of a leader's variable between two bounds at the end.
fn put_leader_between(
    out: &mut Seq<Asked>,
    low: Frac,
    high: Frac,
    place: usize,
) -> Result<(), AllocError>
    ensures { OnOk result (out.new ≡ out.old ++ leader_range_asked (At low) (At high) place) }
{
    if meet(low, high) {
        out.push(Asked::ToBeZero(Item::Low(place, low)))?;
        return Ok(());
    }
    out.push(Asked::ToBeNonneg(Item::Low(place, low)))?;
    out.push(Asked::ToBeNonneg(Item::High(place, high)))?;
    Ok(())
}

/// Puts what is asked of a leader's variable with these bounds at the end.
fn put_leader_range(
    out: &mut Seq<Asked>,
    low: End,
    high: End,
    place: usize,
) -> Result<(), AllocError>
    ensures { OnOk result (out.new ≡ out.old ++ leader_range_asked low high place) }
{
    match (low, high) {
        (End::Open, End::Open) => Ok(()),
        (End::At(low), End::Open) => out.push(Asked::ToBeNonneg(Item::Low(place, low))),
        (End::Open, End::At(high)) => out.push(Asked::ToBeNonneg(Item::High(place, high))),
        (End::At(low), End::At(high)) => put_leader_between(out, low, high, place),
    }
}

/// Puts what is asked of the leader's own variables at the end.
#[tactic(auto, using(crate::proofs::Putting::putting))]
fn put_leader_own(
    out: &mut Seq<Asked>,
    problem: &AgentProblem,
    own: &[VarId],
) -> Result<(), AllocError>
    ensures { OnOk result (out.new ≡ out.old ++ leader_own_asked problem.now own.now) }
{
    for at in 0..own.len() {
        let place = place_of(problem.variables.as_slice(), own[at]);
        let (low, high) = range_of(problem.variables.as_slice(), place);
        put_leader_range(out, low, high, place)?;
    }
    Ok(())
}

/// Puts what is asked of a leader's rule with this relation at the end.
fn put_leader_rule(out: &mut Seq<Asked>, relation: Relation, rule: usize) -> Result<(), AllocError>
    ensures { OnOk result (out.new ≡ out.old ++ leader_rule_asked relation rule) }
{
    match relation {
        Relation::Equal => out.push(Asked::ToBeZero(Item::LeaderRow(rule, false))),
        Relation::AtLeast => out.push(Asked::ToBeNonneg(Item::LeaderRow(rule, false))),
        Relation::AtMost => out.push(Asked::ToBeNonneg(Item::LeaderRow(rule, true))),
        Relation::Nothing => Ok(()),
    }
}

/// Puts what is asked of the leader's rules at the end.
#[tactic(auto, using(crate::proofs::Putting::putting))]
fn put_leader_rules(out: &mut Seq<Asked>, rules: &[Rule]) -> Result<(), AllocError>
    ensures { OnOk result (out.new ≡ out.old ++ leader_rules_asked 0 rules.now) }
{
    for at in 0..rules.len() {
        put_leader_rule(out, rules[at].relation, at)?;
    }
    Ok(())
}

/// Puts what is asked of the leader at the end, where there is one.
#[tactic(auto, using(crate::proofs::Putting::putting))]
fn put_leader(
    out: &mut Seq<Asked>,
    problem: &AgentProblem,
    leader: &Option<LeaderPart>,
) -> Result<(), AllocError>
    ensures { OnOk result (out.new ≡ out.old ++ leader_asked problem.now leader.now) }
{
    match leader {
        None => Ok(()),
        Some(part) => {
            put_leader_own(out, problem, part.own.as_slice())?;
            put_leader_rules(out, part.rules.as_slice())
        }
    }
}

/// All that is asked, in order: of the leader, then of each block.
#[tactic(auto, using(crate::proofs::Putting::putting))]
pub fn asked_of(
    alloc: Global,
    problem: &AgentProblem,
    extras: &[Extra],
) -> Result<Seq<Asked>, AllocError>
    requires layout { IsLayout problem.now extras.now }
    ensures { IfOk result (λ out. out ≡ asked problem.now) }
{
    let mut out = Seq::new(alloc);
    put_leader(&mut out, problem, &problem.leader)?;
    put_blocks(&mut out, problem, extras)?;
    Ok(out)
}

// ---- as quantities
/// Puts the functions of one condition at the end; of a pair the second stands first.
fn put_items(out: &mut Seq<Item>, one: Asked) -> Result<(), AllocError>
    ensures { OnOk result (out.new ≡ out.old ++ items_one one) }
{
    match one {
        Asked::ToBeZero(item) => out.push(item),
        Asked::ToBeNonneg(item) => out.push(item),
        Asked::Pair(first, second) => {
            out.push(second)?;
            out.push(first)
        }
    }
}

/// The functions in order.
#[tactic(auto, using(crate::proofs::Putting::listing))]
pub fn items_of(alloc: Global, asked: &[Asked]) -> Result<Seq<Item>, AllocError>
    ensures { IfOk result (λ out. out ≡ items_of asked.now) }
{
    let mut out = Seq::new(alloc);
    for at in 0..asked.len() {
        put_items(&mut out, asked[at])?;
    }
    Ok(out)
}

/// Puts the kinds of one condition at the end.
fn put_kinds(out: &mut Seq<Kind>, one: Asked) -> Result<(), AllocError>
    ensures { OnOk result (out.new ≡ out.old ++ kinds_one one) }
{
    match one {
        Asked::ToBeZero(_) => out.push(Kind::Zero),
        Asked::ToBeNonneg(_) => out.push(Kind::Nonneg),
        Asked::Pair(_, _) => {
            out.push(Kind::Nonneg)?;
            out.push(Kind::Nonneg)
        }
    }
}

/// A kind for each function.
#[tactic(auto, using(crate::proofs::Putting::listing))]
pub fn kinds_of(alloc: Global, asked: &[Asked]) -> Result<Seq<Kind>, AllocError>
    ensures { IfOk result (λ out. out ≡ asked_kinds asked.now) }
{
    let mut out = Seq::new(alloc);
    for at in 0..asked.len() {
        put_kinds(&mut out, asked[at])?;
    }
    Ok(out)
}

/// The pairs so far, and how many functions there are before the next condition.
#[derive(Drop)]
struct Pairing {
    pairs: Seq<(u32, u32)>,
    before: u32,
}

/// Puts the pair of one condition at the end.
fn put_pair(pairing: &mut Pairing, one: Asked) -> Result<(), AllocError>
    requires { pairing.old.before ≤ 512 }
    ensures pairs { OnOk result (pairing.new.pairs ≡ pairing.old.pairs ++ pairs_one pairing.old.before one) }
    ensures before { OnOk result (pairing.new.before ≡ pairing.old.before + length (items_one one)) }
{
    match one {
        Asked::ToBeZero(_) => pairing.before += 1,
        Asked::ToBeNonneg(_) => pairing.before += 1,
        Asked::Pair(_, _) => {
            pairing
                .pairs
                .push((pairing.before + 2, pairing.before + 1))?;
            pairing.before += 2;
        }
    }
    Ok(())
}

/// The pairs by the numbers of their functions, from 1, first member first.
#[tactic(auto, using(crate::proofs::Putting::pairing))]
pub fn pairs_of(alloc: Global, asked: &[Asked]) -> Result<Seq<(u32, u32)>, AllocError>
    requires few { length (items_of asked.now) ≤ 512 }
    ensures { IfOk result (λ out. out ≡ asked_pairs 0 asked.now) }
{
    let mut pairing = Pairing {
        pairs: Seq::new(alloc),
        before: 0,
    };
    for at in 0..asked.len() {
        put_pair(&mut pairing, asked[at])?;
    }
    Ok(pairing.pairs)
}
