//! Models as text.
ghost use Rattle.std.specs.Prelude.{◌≡◌, ◌++◌, OnOk, IfOk};
ghost use Rattle.gms_print.specs.Canonical.{goal_text, last_lines, IsCanonical};
ghost use Rattle.gms_print.specs.ReadsBack.{HasText, ReadsBack};
ghost use Rattle.gms_print.specs.Decimals.{Adds};
ghost use Rattle.gms_print.specs.Marks.{names_of};
ghost use Rattle.gms_print.specs.Lines.{goal_word, IsPrintableModel};

use crate::expression::write_variable;
use crate::model_lines::{
    write_bounds, write_equation_names, write_equations, write_variable_names,
};
use emp_ast::model::{Model, Sense, Variable};
use emp_ast::tree::VarId;
use std::alloc::{AllocError, Global};

fn goal_word(sense: Sense) -> &'static [u8]
    ensures { result.now ≡ goal_word sense }
{
    match sense {
        Sense::Min => b" minimizing ",
        Sense::Max => b" maximizing ",
    }
}

/// Writes the objective of a solve statement.
#[tactic(auto, using(crate::proofs::ModelLines::aiming))]
fn write_goal(
    out: &mut Vec<u8>,
    variables: &[Variable],
    goal: Option<(Sense, VarId)>,
) -> Result<(), AllocError>
    ensures { OnOk result (out.new.items ≡ out.old.items ++ goal_text (names_of variables.now) goal) }
{
    let Some((sense, variable)) = goal else {
        return Ok(());
    };
    out.extend_from_slice(goal_word(sense))?;
    write_variable(out, variables, variable)?;
    Ok(())
}

/// Writes the model statement and the solve statement.
fn write_last_lines(out: &mut Vec<u8>, model: &Model) -> Result<(), AllocError>
    ensures { OnOk result (out.new.items ≡ out.old.items ++ last_lines model.now) }
{
    let name = model.name.as_bytes();
    out.extend_from_slice(b"Model ")?;
    out.extend_from_slice(name)?;
    out.extend_from_slice(b" / all /;\nSolve ")?;
    out.extend_from_slice(name)?;
    out.extend_from_slice(b" using EMP")?;
    write_goal(out, model.variables.as_slice(), model.goal)?;
    out.extend_from_slice(b";\n")?;
    Ok(())
}

/// Writes the text of a model behind what is written.
fn write_model(alloc: Global, out: &mut Vec<u8>, model: &Model) -> Result<(), AllocError>
    ensures { OnOk result (IsPrintableModel model.now → Adds (IsCanonical model.now) out.old.items out.new.items) }
{
    let variables = model.variables.as_slice();
    let equations = model.equations.as_slice();
    write_variable_names(out, variables)?;
    write_equation_names(out, equations)?;
    write_equations(alloc, out, variables, equations)?;
    write_bounds(out, variables)?;
    write_last_lines(out, model)?;
    Ok(())
}

/// The canonical text of a model, as `specs/Canonical.antt` defines it. Of a model that some text stands for it stands for the
/// same model, places aside.
///
/// Of a model with a number that no decimal of at most 37 places writes it writes some text.
pub fn print_model(alloc: Global, model: &Model) -> Result<Vec<u8>, AllocError>
    ensures printable { IsPrintableModel model.now → IfOk result (λ v. IsCanonical model.now v.items) }
    ensures canonical { HasText model.now → IfOk result (λ v. IsCanonical model.now v.items) }
    ensures reads_back { HasText model.now → IfOk result (λ v. ReadsBack v.items model.now) }
{
    let mut out = Vec::new(alloc);
    write_model(alloc, &mut out, model)?;
    Ok(out)
}
