//! The problem of the variables that are left.
ghost use Rattle.std.specs.Prelude.{◌≡◌, IfOk};

use emp_ast::model::{End, Relation};
use emp_ast::tree::{EquId, VarId};
use emp_list::seq::Seq;
use emp_poly::quad::{Lin, Quad};

/// A variable that no equation defines, and its bounds.
#[derive(Clone, Copy, Debug)]
pub struct LeftVariable {
    pub variable: VarId,
    pub low: End,
    pub high: End,
}

/// A constraint: left minus right of the equation, and how it is to stand to 0.
#[derive(Drop)]
pub struct Rule {
    pub equation: EquId,
    pub relation: Relation,
    pub row: Lin,
}

/// What a block wants: an agent's objective is to be least (that of a `max` agent negated), or a variational inequality has
/// one function for each own variable, in the order of `own`.
#[derive(Drop)]
pub enum Purpose {
    Goal(Quad),
    Flow(Seq<Lin>),
}

/// A block: its own variables that are left and its constraints, both in the block's order.
#[derive(Drop)]
pub struct BlockPart {
    pub own: Seq<VarId>,
    pub purpose: Purpose,
    pub rules: Seq<Rule>,
}

/// The leader of a bilevel file: its own variables that are left, the objective that is to be least, and its constraints, in
/// order of declaration.
#[derive(Drop)]
pub struct LeaderPart {
    pub own: Seq<VarId>,
    pub goal: Lin,
    pub rules: Seq<Rule>,
}

/// The variables that are left, in order of declaration, and who chooses them. `leader` is none exactly in an equilibrium
/// file. The dual variables stand with their equations, and the equations of `visols` have one multiplier for all blocks.
/// What the problem of a file is stands in `specs/ProblemOf.antt`, and what game it is in `specs/Problem.antt`.
#[derive(Drop)]
pub struct AgentProblem {
    pub variables: Seq<LeftVariable>,
    pub leader: Option<LeaderPart>,
    pub blocks: Seq<BlockPart>,
    pub duals: Seq<(VarId, EquId)>,
    pub visols: Seq<EquId>,
}
