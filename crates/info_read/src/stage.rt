//! What stands before a lexeme, and what is noted when it is taken.
use emp_ast::model::Sense;
use emp_ast::tree::{EquId, VarId};

/// What was read, as far as it bears on what may come.
#[derive(Clone, Copy, Debug)]
pub enum Stage {
    /// Nothing.
    Start,
    /// `equilibrium`
    Head,
    /// `bilevel`, and variables of the leader or none.
    Leader,
    /// `min` or `max`
    Objective(Sense),
    /// The same, the objective, and variables or none.
    AgentVariables(Sense, VarId),
    /// The same, and equations.
    AgentEquations(Sense, VarId),
    /// `vi`
    ViStart,
    /// The same, and variables.
    Zeros,
    /// The same, and an equation: the function of a pair if a variable comes next, and else the first constraint.
    Function(EquId),
    /// The same, and pairs.
    Pairs,
    /// The same, and two constraints or more.
    Constraints,
    /// `dualvar`
    DualStart,
    /// A dual variable, without its equation.
    DualEquation(VarId),
    /// Dual variables, each with its equation.
    Duals,
    /// `visol`
    VisolStart,
    /// The same, and equations.
    Visols,
    /// `implicit`
    ImplicitStart,
    /// An implicit variable, without its equation.
    ImplicitEquation(VarId),
    /// Implicit variables, each with its equation.
    Implicits,
}

/// What is noted in a draft.
#[derive(Clone, Copy, Debug)]
pub enum Note {
    Nothing,
    Bilevel,
    Leader(VarId),
    /// A variable of the block that is read.
    Variable(VarId),
    /// An equation of the block that is read.
    Equation(EquId),
    /// Two equations of it.
    Equations(EquId, EquId),
    /// A pair of it.
    Pair(EquId, VarId),
    Dual(VarId, EquId),
    Visol(EquId),
    Implicit(VarId, EquId),
}

/// What a stage does at a lexeme that begins no item.
#[derive(Clone, Copy, Debug)]
pub enum Move {
    Fail,
    Take(Stage, Note),
}
