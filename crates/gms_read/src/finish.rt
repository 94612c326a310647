//! From a draft to a model.
ghost use Rattle.std.specs.Prelude.{◌≡◌, int_lt, ◌*ℤ◌, IfOk, MatchResult};
ghost use Rattle.gms_grammar.specs.declared.fault.ModelFault.TheVariants.{NoMemory};
ghost use Rattle.gms_read.specs.Rules.{undefined_from, crosses, crossing_from, end_of, finished_variables, finished_equations, or_empty, finish};
ghost use Rattle.gms_read.specs.Steps.{FinishesAs};

use crate::draft::{Draft, DraftEquation, DraftVariable};
use emp_ast::model::{End, Equation, Model, Variable};
use emp_ast::tree::{EquId, VarId};
use emp_list::name::Name;
use emp_list::seq::Seq;
use emp_num::frac::Frac;
use gms_grammar::fault::ModelFault;
use gms_grammar::limit::Limit;
use std::alloc::{AllocError, Global};

/// The number of a place in a list. No text declares so many that a place has none.
fn number(at: usize) -> Result<u32, ModelFault>
    ensures { MatchResult result (λ n. n ≡ at) (λ f. f ≡ NoMemory) }
{
    u32::try_from(at).map_err(|_| ModelFault::NoMemory)
}

/// The fault of the first equation that is not defined.
#[tactic(auto, using(crate::proofs::Finishes::defining))]
fn undefined_fault(
    alloc: Global,
    equations: &[DraftEquation],
) -> Result<Option<ModelFault>, ModelFault>
    ensures { MatchResult result (λ f. f ≡ undefined_from 0 equations.now) (λ f. f ≡ NoMemory) }
{
    for (at, equation) in equations.iter().enumerate() {
        if equation.definition.is_none() {
            let name = Name::of(alloc, equation.name.as_bytes())?;
            let equation = EquId { at: number(at)? };
            return Ok(Some(ModelFault::Undefined(equation, name)));
        }
    }
    Ok(None)
}

/// Whether the first of two fractions is above the second.
#[tactic(auto, using(crate::proofs::Finishes::ordering))]
fn is_above(f: Frac, g: Frac) -> bool
    ensures { result ≡ int_lt (g.num *ℤ f.den) (f.num *ℤ g.den) }
{
    Frac::cmp(f, g).is_gt()
}

/// Whether no value lies between the limits.
fn crosses(low: Limit, high: Limit) -> bool
    ensures { result ≡ crosses low high }
{
    match (low, high) {
        (Limit::Above, _) => true,
        (_, Limit::Below) => true,
        (Limit::At(f), Limit::At(g)) => is_above(f, g),
        _ => false,
    }
}

/// The fault of the first variable whose bounds leave it no value.
#[tactic(auto, using(crate::proofs::Finishes::crossing))]
fn crossing_fault(
    alloc: Global,
    variables: &[DraftVariable],
) -> Result<Option<ModelFault>, ModelFault>
    ensures { MatchResult result (λ f. f ≡ crossing_from 0 variables.now) (λ f. f ≡ NoMemory) }
{
    for (at, variable) in variables.iter().enumerate() {
        if crosses(variable.low, variable.high) {
            let name = Name::of(alloc, variable.name.as_bytes())?;
            let variable = VarId { at: number(at)? };
            return Ok(Some(ModelFault::BoundsCross(variable, name)));
        }
    }
    Ok(None)
}

fn end_of(limit: Limit) -> End
    ensures { result ≡ end_of limit }
{
    match limit {
        Limit::At(f) => End::At(f),
        Limit::Below | Limit::Above => End::Open,
    }
}

/// The variables with their bounds.
#[tactic(auto, using(crate::proofs::Finishes::bounding))]
fn finished_variables(
    alloc: Global,
    variables: &[DraftVariable],
) -> Result<Seq<Variable>, AllocError>
    ensures { IfOk result (λ v. v ≡ finished_variables variables.now) }
{
    let mut finished = Seq::new(alloc);
    for variable in variables {
        finished.push(Variable {
            name: Name::of(alloc, variable.name.as_bytes())?,
            low: end_of(variable.low),
            high: end_of(variable.high),
        })?;
    }
    Ok(finished)
}

/// The equations with their definitions. One that is not defined is left out.
#[tactic(auto, using(crate::proofs::Finishes::collecting))]
fn finished_equations(
    alloc: Global,
    equations: Seq<DraftEquation>,
) -> Result<Seq<Equation>, AllocError>
    ensures { IfOk result (λ v. v ≡ finished_equations equations) }
{
    let mut finished = Seq::new(alloc);
    for equation in equations.into_items() {
        let DraftEquation { name, definition } = equation;
        if let Some(definition) = definition {
            finished.push(Equation {
                name,
                left: definition.left,
                right: definition.right,
                relation: definition.relation,
            })?;
        }
    }
    Ok(finished)
}

/// The model's name, and an empty one where there is none.
fn or_empty(alloc: Global, name: Option<Name>) -> Result<Name, AllocError>
    ensures { IfOk result (λ n. n ≡ or_empty name) }
{
    match name {
        Some(name) => Ok(name),
        None => Name::of(alloc, b""),
    }
}

/// The model of a draft, or the first rule that it breaks.
pub fn finish(alloc: Global, draft: Draft) -> Result<Model, ModelFault>
    ensures { FinishesAs (finish draft) result }
{
    if let Some(fault) = undefined_fault(alloc, draft.equations.as_slice())? {
        return Err(fault);
    }
    if let Some(fault) = crossing_fault(alloc, draft.variables.as_slice())? {
        return Err(fault);
    }
    let variables = finished_variables(alloc, draft.variables.as_slice())?;
    let equations = finished_equations(alloc, draft.equations)?;
    let name = or_empty(alloc, draft.model)?;
    Ok(Model {
        name,
        variables,
        equations,
        goal: draft.goal,
    })
}
