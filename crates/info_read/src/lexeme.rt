//! Tokens as the grammar of annotations sees them.
use emp_ast::model::Sense;
use emp_ast::tree::{EquId, Place, VarId};

/// What a token is, in the light of a model. Keywords are no names; letters are compared without case.
#[derive(Clone, Copy, Debug)]
pub enum Sort {
    Equilibrium,
    Bilevel,
    /// `min` or `max`
    Agent(Sense),
    Vi,
    Dualvar,
    Visol,
    Implicit,
    /// `disjunction`, `randvar` or `stage`: a keyword that stands in no annotation.
    Reserved,
    /// The name of a variable of the model.
    Variable(VarId),
    /// The name of an equation of the model.
    Equation(EquId),
    /// A name that is neither.
    Unknown,
    /// A numeral, a text, a relation or a symbol.
    Mark,
}

/// A token with what it is, and its place.
#[derive(Clone, Copy, Debug)]
pub struct Lexeme {
    pub sort: Sort,
    pub place: Place,
}
