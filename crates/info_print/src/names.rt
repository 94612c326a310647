//! Names behind spaces.
ghost use Rattle.std.specs.Prelude.{◌≡◌, ◌++◌, OnOk, flat_map};
ghost use Rattle.info_print.specs.Canonical.{variable_word, equation_word, pair_words, variable_words, equation_words};

use emp_ast::model::Model;
use emp_ast::tree::{EquId, VarId};
use std::alloc::AllocError;

/// Writes a space and the name of a variable, or the space alone where there is no such variable.
#[tactic(auto, using(crate::proofs::Flat::naming))]
pub fn write_variable(out: &mut Vec<u8>, model: &Model, variable: VarId) -> Result<(), AllocError>
    ensures { OnOk result (out.new.items ≡ out.old.items ++ variable_word model.now variable) }
{
    out.push(b' ')?;
    let at = variable.at as usize;
    if at < model.variables.len() {
        out.extend_from_slice(model.variables.get(at).name.as_bytes())?;
    }
    Ok(())
}

/// Writes a space and the name of an equation, or the space alone where there is no such equation.
#[tactic(auto, using(crate::proofs::Flat::naming))]
pub fn write_equation(out: &mut Vec<u8>, model: &Model, equation: EquId) -> Result<(), AllocError>
    ensures { OnOk result (out.new.items ≡ out.old.items ++ equation_word model.now equation) }
{
    out.push(b' ')?;
    let at = equation.at as usize;
    if at < model.equations.len() {
        out.extend_from_slice(model.equations.get(at).name.as_bytes())?;
    }
    Ok(())
}

/// Writes the variables.
#[tactic(auto, using(crate::proofs::Flat::flat))]
pub fn write_variables(
    out: &mut Vec<u8>,
    model: &Model,
    variables: &[VarId],
) -> Result<(), AllocError>
    ensures { OnOk result (out.new.items ≡ out.old.items ++ variable_words model.now variables.now) }
{
    for variable in variables {
        write_variable(out, model, *variable)?;
    }
    Ok(())
}

/// Writes the equations.
#[tactic(auto, using(crate::proofs::Flat::flat))]
pub fn write_equations(
    out: &mut Vec<u8>,
    model: &Model,
    equations: &[EquId],
) -> Result<(), AllocError>
    ensures { OnOk result (out.new.items ≡ out.old.items ++ equation_words model.now equations.now) }
{
    for equation in equations {
        write_equation(out, model, *equation)?;
    }
    Ok(())
}

#[tactic(auto, using(crate::proofs::Flat::flat))]
fn write_pair(out: &mut Vec<u8>, model: &Model, pair: (EquId, VarId)) -> Result<(), AllocError>
    ensures { OnOk result (out.new.items ≡ out.old.items ++ pair_words model.now pair) }
{
    write_equation(out, model, pair.0)?;
    write_variable(out, model, pair.1)
}

/// Writes the pairs, the equation before the variable.
#[tactic(auto, using(crate::proofs::Flat::flat))]
pub fn write_pairs(
    out: &mut Vec<u8>,
    model: &Model,
    pairs: &[(EquId, VarId)],
) -> Result<(), AllocError>
    ensures { OnOk result (out.new.items ≡ out.old.items ++ flat_map (pair_words model.now) pairs.now) }
{
    for pair in pairs {
        write_pair(out, model, *pair)?;
    }
    Ok(())
}
