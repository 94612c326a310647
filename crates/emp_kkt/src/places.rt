//! Where the parts of a problem stand.
ghost use Rattle.std.specs.Prelude.{◌≡◌, ◌<◌, pos, map};
ghost use Rattle.emp_game.specs.Game.{names, range_at};
ghost use Rattle.emp_game.specs.Conditions.{ends_meet};
ghost use Rattle.emp_split.specs.Games.{has_rule, dual_of};
ghost use Rattle.emp_split.specs.Numbers.{first_with, holder};
ghost use Rattle.emp_problem.specs.Left.{place_in};
ghost use Rattle.emp_problem.specs.Problem.{left_of, game_rule};
ghost use Rattle.emp_kkt.specs.Items.{shape};

use emp_ast::model::End;
use emp_ast::tree::VarId;
use emp_num::frac::Frac;
use emp_problem::problem::{AgentProblem, LeftVariable, Rule};

/// Where the variable stands among those that are left, behind them where it is none; from 0.
#[tactic(auto, using(crate::proofs::Placing::placing))]
pub fn place_of(variables: &[LeftVariable], of: VarId) -> usize
    ensures { result ≡ place_in (map (λ v. v.variable.at) variables.now) of.at }
{
    for at in 0..variables.len() {
        if variables[at].variable.at == of.at {
            return at;
        }
    }
    variables.len()
}

/// The ends of the range at a place; open ones where no variable stands there.
pub fn range_of(variables: &[LeftVariable], place: usize) -> (End, End)
    ensures { result ≡ range_at (map (λ v. (v.low, v.high)) variables.now) place }
{
    if place < variables.len() {
        (variables[place].low, variables[place].high)
    } else {
        (End::Open, End::Open)
    }
}

/// Whether the two ends are one number.
#[tactic(auto, using(crate::proofs::Placing::ends))]
pub fn meet(low: Frac, high: Frac) -> bool
    ensures { result ≡ ends_meet low high }
{
    low.num == high.num && low.den == high.den
}

/// The place of the variable that is the equation's multiplier, by the first pair that names the equation.
#[tactic(auto, using(crate::proofs::Placing::placing))]
pub fn dual_place(problem: &AgentProblem, equation: u32) -> Option<usize>
    ensures { result ≡ dual_of (shape problem.now).duals equation }
{
    for at in 0..problem.duals.len() {
        let dual = *problem.duals.get(at);
        if dual.1.at == equation {
            return Some(place_of(problem.variables.as_slice(), dual.0));
        }
    }
    None
}

/// Whether the equation has one multiplier for all blocks.
#[tactic(auto, using(crate::proofs::Placing::placing))]
pub fn is_visol(problem: &AgentProblem, equation: u32) -> bool
    ensures { result ≡ names (shape problem.now).visols equation }
{
    for at in 0..problem.visols.len() {
        if problem.visols.get(at).at == equation {
            return true;
        }
    }
    false
}

/// Whether one of the rules is of the equation.
#[tactic(auto, using(crate::proofs::Placing::placing))]
fn is_constrained(problem: &AgentProblem, rules: &[Rule], equation: u32) -> bool
    ensures { result ≡ has_rule (map (game_rule (pos 1) (left_of problem.now)) rules.now) equation }
{
    for at in 0..rules.len() {
        if rules[at].equation.at == equation {
            return true;
        }
    }
    false
}

/// The first block that has a rule of the equation, behind all where none has; from 0.
#[tactic(auto, using(crate::proofs::Placing::placing))]
fn first_block(problem: &AgentProblem, equation: u32) -> usize
    ensures { result ≡ first_with 0 (shape problem.now).players equation }
{
    for at in 0..problem.blocks.len() {
        if is_constrained(problem, problem.blocks.get(at).rules.as_slice(), equation) {
            return at;
        }
    }
    problem.blocks.len()
}

/// The block whose number is the block's multiplier of the equation.
pub fn holder_of(problem: &AgentProblem, block: usize, equation: u32) -> usize
    ensures { result ≡ holder (shape problem.now) block equation }
{
    if is_visol(problem, equation) {
        first_block(problem, equation)
    } else {
        block
    }
}
