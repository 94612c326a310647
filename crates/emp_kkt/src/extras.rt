//! The base variables behind the variables that are left.
ghost use Rattle.std.specs.Prelude.{◌≡◌, ◌<◌, ◌≤◌, ◌+◌, ◌++◌, map, length, IfOk, OnOk};
ghost use Rattle.emp_split.specs.Numbers.{needs_own, player_slots};
ghost use Rattle.emp_conditions.specs.Base.{two_ends, range_slots, base_from, base_slots, index_base, same_base, range_place, multiplier_place, multiplier};
ghost use Rattle.emp_problem.specs.Problem.{place_of};
ghost use Rattle.emp_kkt.specs.Items.{shape, base_of, part_at};
ghost use Rattle.emp_kkt.specs.Making.{IsLayout, own_places, rules_at};

use crate::places::{dual_place, holder_of, meet, place_of, range_of};
use emp_ast::model::End;
use emp_list::seq::Seq;
use emp_problem::problem::{AgentProblem, BlockPart};
use std::alloc::{AllocError, Global};

/// A base variable that is no variable of the file. Blocks, places and equations are counted from 0.
#[derive(Clone, Copy, Debug)]
pub enum Extra {
    /// Of a block and the place of an own variable with two different bounds.
    Range(usize, usize),
    /// Of a block and an equation that has no dual variable.
    Multiplier(usize, u32),
}

/// Whether two are the same one.
fn is_same(left: Extra, right: Extra) -> bool
    ensures { result ≡ same_base (base_of left) (base_of right) }
{
    match (left, right) {
        (Extra::Range(i, k), Extra::Range(j, l)) => i == j && k == l,
        (Extra::Multiplier(i, e), Extra::Multiplier(j, f)) => i == j && e == f,
        (Extra::Range(_, _), Extra::Multiplier(_, _)) => false,
        (Extra::Multiplier(_, _), Extra::Range(_, _)) => false,
    }
}

/// Where it stands among these, behind them where it is none; from 0.
#[tactic(auto, using(crate::proofs::Placing::placing))]
fn index_of(extras: &[Extra], of: Extra) -> usize
    ensures index { result ≡ index_base (base_of of) (map base_of extras.now) }
    ensures within { result ≤ length extras.now }
{
    for at in 0..extras.len() {
        if is_same(extras[at], of) {
            return at;
        }
    }
    extras.len()
}

/// The base variable of a range, from 0.
pub fn range_base(problem: &AgentProblem, extras: &[Extra], block: usize, place: usize) -> usize
    requires layout { IsLayout problem.now extras.now }
    ensures { result ≡ range_place (shape problem.now) block place }
{
    problem.variables.len() + index_of(extras, Extra::Range(block, place))
}

/// The base variable that is the multiplier of a block's rule of the equation, from 0.
pub fn multiplier_base(
    problem: &AgentProblem,
    extras: &[Extra],
    block: usize,
    equation: u32,
) -> usize
    requires layout { IsLayout problem.now extras.now }
    ensures { result ≡ multiplier_place (shape problem.now) block equation }
{
    match dual_place(problem, equation) {
        Some(place) => place,
        None => {
            let holder = holder_of(problem, block, equation);
            problem.variables.len() + index_of(extras, Extra::Multiplier(holder, equation))
        }
    }
}

// ---- which there are
/// Whether both ends are there and differ.
fn has_two_ends(low: End, high: End) -> bool
    ensures { result ≡ two_ends low high }
{
    match (low, high) {
        (End::At(low), End::At(high)) => !meet(low, high),
        (End::Open, _) => false,
        (End::At(_), End::Open) => false,
    }
}

/// Puts the ranges of the block's own variables at the end.
#[tactic(auto, using(crate::proofs::Placing::extending))]
fn put_ranges(
    out: &mut Seq<Extra>,
    problem: &AgentProblem,
    block: usize,
    part: &BlockPart,
) -> Result<(), AllocError>
    ensures { OnOk result (map base_of out.new ≡ map base_of out.old ++ range_slots (shape problem.now).ranges block (own_places problem.now part.now.own)) }
{
    for at in 0..part.own.len() {
        let place = place_of(problem.variables.as_slice(), *part.own.get(at));
        let (low, high) = range_of(problem.variables.as_slice(), place);
        if has_two_ends(low, high) {
            out.push(Extra::Range(block, place))?;
        }
    }
    Ok(())
}

/// Whether the block has a number of its own for the equation.
fn has_own(problem: &AgentProblem, block: usize, equation: u32) -> bool
    ensures { result ≡ needs_own (shape problem.now) block equation }
{
    dual_place(problem, equation).is_none() && holder_of(problem, block, equation) == block
}

/// Puts the multipliers of the block's rules that have a number of their own at the end.
#[tactic(auto, using(crate::proofs::Placing::extending))]
fn put_multipliers(
    out: &mut Seq<Extra>,
    problem: &AgentProblem,
    block: usize,
    part: &BlockPart,
) -> Result<(), AllocError>
    ensures { OnOk result (map base_of out.new ≡ map base_of out.old ++ map (λ s. multiplier s.0 s.1) (player_slots (shape problem.now) block (rules_at problem.now part.now.rules))) }
{
    for at in 0..part.rules.len() {
        let equation = part.rules.get(at).equation.at;
        if has_own(problem, block, equation) {
            out.push(Extra::Multiplier(block, equation))?;
        }
    }
    Ok(())
}

/// All of them, block by block: ranges before multipliers.
#[tactic(auto, using(crate::proofs::Placing::extending))]
pub fn extras_of(alloc: Global, problem: &AgentProblem) -> Result<Seq<Extra>, AllocError>
    ensures { IfOk result (λ out. map base_of out ≡ base_slots (shape problem.now)) }
{
    let mut out = Seq::new(alloc);
    for at in 0..problem.blocks.len() {
        put_ranges(&mut out, problem, at, problem.blocks.get(at))?;
        put_multipliers(&mut out, problem, at, problem.blocks.get(at))?;
    }
    Ok(out)
}
