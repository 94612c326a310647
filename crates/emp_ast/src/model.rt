//! Models.
ghost use Rattle.std.specs.Prelude.{◌≡◌, IfOk};

use crate::tree::{EquId, Tree, VarId};
use emp_list::memory::NoMemory;
use emp_list::name::Name;
use emp_list::seq::Seq;
use emp_num::frac::Frac;
use std::alloc::Global;

/// How the left side of an equation stands to the right: `=E=`, `=G=`, `=L=`, `=N=`.
#[derive(Clone, Copy, Debug, PartialEq, Eq)]
pub enum Relation {
    Equal,
    AtLeast,
    AtMost,
    Nothing,
}

/// An equation with its definition.
#[derive(Drop)]
pub struct Equation {
    pub name: Name,
    pub left: Tree,
    pub right: Tree,
    pub relation: Relation,
}

impl Equation {
    /// The same equation once more.
    pub fn copy(&self, alloc: Global) -> Result<Equation, NoMemory>
        ensures { IfOk result (λ e. e ≡ self.now) }
    {
        let name = self.name.copy(alloc)?;
        let left = self.left.copy(alloc)?;
        let right = self.right.copy(alloc)?;
        let relation = self.relation;
        Ok(Equation {
            name,
            left,
            right,
            relation,
        })
    }
}

/// An end of a variable's range.
#[derive(Clone, Copy, Debug)]
pub enum End {
    Open,
    At(Frac),
}

/// A variable with its bounds.
#[derive(Drop)]
pub struct Variable {
    pub name: Name,
    pub low: End,
    pub high: End,
}

impl Variable {
    /// The same variable once more.
    pub fn copy(&self, alloc: Global) -> Result<Variable, NoMemory>
        ensures { IfOk result (λ v. v ≡ self.now) }
    {
        let name = self.name.copy(alloc)?;
        Ok(Variable {
            name,
            low: self.low,
            high: self.high,
        })
    }
}

/// Whether an objective is to be least or greatest: `min`, `max`.
#[derive(Clone, Copy, Debug, PartialEq, Eq)]
pub enum Sense {
    Min,
    Max,
}

/// A model: its variables and equations in order of declaration, and the objective of its solve statement.
#[derive(Drop)]
pub struct Model {
    pub name: Name,
    pub variables: Seq<Variable>,
    pub equations: Seq<Equation>,
    pub goal: Option<(Sense, VarId)>,
}

/// The same variables once more.
fn copy_variables(alloc: Global, variables: &Seq<Variable>) -> Result<Seq<Variable>, NoMemory>
    ensures { IfOk result (λ list. list ≡ variables.now) }
{
    let mut copies = Seq::new(alloc);
    for at in 0..variables.len() {
        copies.push(variables.get(at).copy(alloc)?)?;
    }
    Ok(copies)
}

/// The same equations once more.
fn copy_equations(alloc: Global, equations: &Seq<Equation>) -> Result<Seq<Equation>, NoMemory>
    ensures { IfOk result (λ list. list ≡ equations.now) }
{
    let mut copies = Seq::new(alloc);
    for at in 0..equations.len() {
        copies.push(equations.get(at).copy(alloc)?)?;
    }
    Ok(copies)
}

impl Model {
    ghost use Rattle.std.specs.Prelude.{◌<◌, length};
    ghost use Rattle.emp_ast.specs.Names.{FindsVariable, FindsEquation};

    /// The variable of that name, compared without case. `None` exactly where none is declared.
    #[tactic(auto, using(crate::proofs::Finding::finding))]
    pub fn find_var(&self, name: &[u8]) -> Option<VarId>
        requires { length self.now.variables < 4294967296 }
        ensures { FindsVariable self.now name.now result }
    {
        for at in 0..self.variables.len() {
            if self.variables.get(at).name.is_same(name) {
                return Some(VarId { at: at as u32 });
            }
        }
        None
    }

    /// The equation of that name, compared without case. `None` exactly where none is declared.
    #[tactic(auto, using(crate::proofs::Finding::finding))]
    pub fn find_equ(&self, name: &[u8]) -> Option<EquId>
        requires { length self.now.equations < 4294967296 }
        ensures { FindsEquation self.now name.now result }
    {
        for at in 0..self.equations.len() {
            if self.equations.get(at).name.is_same(name) {
                return Some(EquId { at: at as u32 });
            }
        }
        None
    }

    /// The same model once more.
    pub fn copy(&self, alloc: Global) -> Result<Model, NoMemory>
        ensures { IfOk result (λ m. m ≡ self.now) }
    {
        let name = self.name.copy(alloc)?;
        let variables = copy_variables(alloc, &self.variables)?;
        let equations = copy_equations(alloc, &self.equations)?;
        let goal = self.goal;
        Ok(Model {
            name,
            variables,
            equations,
            goal,
        })
    }
}
