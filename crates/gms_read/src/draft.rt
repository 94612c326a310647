//! A model as far as its text is read.
use crate::table::Table;
use emp_ast::model::{Relation, Sense};
use emp_ast::tree::{Tree, VarId};
use emp_list::name::Name;
use emp_list::seq::Seq;
use gms_grammar::limit::Limit;

/// A variable as far as it is declared and set.
#[derive(Drop)]
pub struct DraftVariable {
    pub name: Name,
    pub low: Limit,
    pub high: Limit,
    /// It was named by `positive` or `negative`.
    pub signed: bool,
}

/// The sides of an equation, and how the left one stands to the right one.
#[derive(Drop)]
pub struct Definition {
    pub left: Tree,
    pub relation: Relation,
    pub right: Tree,
}

/// An equation as far as it is declared and defined.
#[derive(Drop)]
pub struct DraftEquation {
    pub name: Name,
    /// What it says, once it is defined.
    pub definition: Option<Definition>,
}

/// What a text declares and defines up to some statement.
#[derive(Drop)]
pub struct Draft {
    /// The declared names, for finding them.
    pub names: Table,
    pub variables: Seq<DraftVariable>,
    pub equations: Seq<DraftEquation>,
    /// The model's name, once there is one.
    pub model: Option<Name>,
    /// The solve objective.
    pub goal: Option<(Sense, VarId)>,
}
