//! Statements as a list of items, in the order in which their rules are tried.
use crate::lexeme::{Domain, Lexeme, Sign};
use crate::limit::Limit;
use emp_ast::model::{Relation, Sense};
use emp_ast::tree::Operator;
use emp_num::frac::Frac;

/// A part of a statement. Operands of an expression come before what joins them.
#[derive(Clone, Copy, Debug)]
pub enum Item {
    /// A declaration of variables begins, at its first word.
    Begins(Domain, Lexeme),
    /// A variable is declared.
    Variable(Domain, Lexeme),
    /// An equation is declared.
    Equation(Lexeme),
    /// The definition of an equation begins, with its left side.
    Defines(Lexeme),
    /// The left side ends, and the right side begins.
    Relates(Relation),
    /// The right side ends, and with it the definition.
    Ends,
    Number(Lexeme, Frac),
    Name(Lexeme),
    /// The arguments of a function begin.
    Enters(Lexeme),
    /// An argument ends, and a further one begins.
    Lists,
    /// The arguments of a function end.
    Applies(Lexeme),
    /// The sum before it stands in parentheses.
    Groups,
    Raises(Lexeme, Frac),
    Signs(Sign, Lexeme),
    Joins(Operator, Lexeme),
    /// A setting: whose, which, and to what.
    Sets(Lexeme, Lexeme, Limit),
    Model(Lexeme),
    /// A match: the equation and the variable.
    Match(Lexeme, Lexeme),
    Solves(Lexeme),
    /// The objective of the solve statement.
    Aims(Sense, Lexeme),
}
