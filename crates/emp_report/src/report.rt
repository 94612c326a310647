//! Reports: a line of what was found, a line of its work, and what was found.
ghost use Rattle.std.specs.Prelude.{◌≡◌, ◌++◌, codes, decimal, map, IfOk, OnOk};
ghost use Rattle.std.specs.Fmt.{signed_decimal};
ghost use Rattle.emp_report.specs.Report.{best_report, equilibrium_report, factors_text, missing_report, missing_text, point_lines, row_text, step_line, step_lines, unbounded_report, value_line, work_text};
ghost use Rattle.emp_numeral.specs.FracText.{fraction_text};
ghost use Rattle.emp_ast.specs.Names.{variable_names};

use emp_ast::model::{Model, Variable};
use emp_cert::tree::Node;
use emp_list::name::Name;
use emp_num::frac::Frac;
use emp_numeral::print::print_frac;
use itoa::Buffer;
use std::alloc::{AllocError, Global};

/// The report of an equilibrium: the value of each variable in order, after that much work.
///
/// The only error is that no memory is left.
pub fn equilibrium(
    alloc: Global,
    work: u64,
    model: &Model,
    point: &[Frac],
) -> Result<Vec<u8>, AllocError>
    ensures { IfOk result (λ v. v.items ≡ equilibrium_report work (variable_names model.now) point.now) }
{
    let mut out = Vec::new(alloc);
    append(&mut out, b"equilibrium\n")?;
    append_count(&mut out, b"work ", work)?;
    append_point(&mut out, model.variables.as_slice(), point)?;
    Ok(out)
}

/// The report of a best point of a bilevel file: the value of each variable in order, after that much work.
///
/// The only error is that no memory is left.
pub fn best(alloc: Global, work: u64, model: &Model, point: &[Frac]) -> Result<Vec<u8>, AllocError>
    ensures { IfOk result (λ v. v.items ≡ best_report work (variable_names model.now) point.now) }
{
    let mut out = Vec::new(alloc);
    append(&mut out, b"best\n")?;
    append_count(&mut out, b"work ", work)?;
    append_point(&mut out, model.variables.as_slice(), point)?;
    Ok(out)
}

/// The report of a ray: the value of each variable where it starts, and the step of each whose step is not 0.
///
/// The only error is that no memory is left.
pub fn unbounded(
    alloc: Global,
    work: u64,
    model: &Model,
    point: &[Frac],
    step: &[Frac],
) -> Result<Vec<u8>, AllocError>
    ensures { IfOk result (λ v. v.items ≡ unbounded_report work (variable_names model.now) point.now step.now) }
{
    let mut out = Vec::new(alloc);
    append(&mut out, b"unbounded\n")?;
    append_count(&mut out, b"work ", work)?;
    append_point(&mut out, model.variables.as_slice(), point)?;
    append_steps(&mut out, model.variables.as_slice(), step)?;
    Ok(out)
}

/// The line that there is none.
fn missing_line(bilevel: bool) -> &'static [u8]
    ensures { result.now ≡ missing_text bilevel }
{
    if bilevel {
        b"no bilevel point\n"
    } else {
        b"no equilibrium\n"
    }
}

/// The report that there is no equilibrium, or in a bilevel file no admissible point, after that much work and that many
/// nodes, with the factors of the row where the root alone decides.
///
/// The only error is that no memory is left.
pub fn missing(
    alloc: Global,
    bilevel: bool,
    work: u64,
    nodes: u64,
    tree: &[Node],
) -> Result<Vec<u8>, AllocError>
    ensures { IfOk result (λ v. v.items ≡ missing_report bilevel work nodes tree.now) }
{
    let mut out = Vec::new(alloc);
    append(&mut out, missing_line(bilevel))?;
    append_count(&mut out, b"work ", work)?;
    append_count(&mut out, b"nodes ", nodes)?;
    append_row(&mut out, tree)?;
    Ok(out)
}

/// Writes a text behind what is written.
pub fn append(out: &mut Vec<u8>, text: &[u8]) -> Result<(), AllocError>
    ensures { OnOk result (out.new.items ≡ out.old.items ++ text.now) }
{
    out.extend_from_slice(text)?;
    Ok(())
}

/// A line with a count behind its word.
pub fn append_count(out: &mut Vec<u8>, word: &[u8], count: u64) -> Result<(), AllocError>
    ensures { OnOk result (out.new.items ≡ out.old.items ++ word.now ++ decimal count ++ codes "\n") }
{
    let mut buffer = Buffer::new();
    append(out, word)?;
    append(out, buffer.format(count).as_bytes())?;
    append(out, b"\n")
}

/// The line of the row where the root alone decides.
fn append_row(out: &mut Vec<u8>, tree: &[Node]) -> Result<(), AllocError>
    ensures { OnOk result (out.new.items ≡ out.old.items ++ row_text tree.now) }
{
    if let [Node::Farkas(factors)] = tree {
        append(out, b"row")?;
        append_factors(out, factors.as_slice())?;
        append(out, b"\n")?;
    }
    Ok(())
}

fn append_number(out: &mut Vec<u8>, number: i128) -> Result<(), AllocError>
    ensures { OnOk result (out.new.items ≡ out.old.items ++ signed_decimal number) }
{
    let mut buffer = Buffer::new();
    append(out, buffer.format(number).as_bytes())
}

/// Writes a fraction behind what is written.
pub fn append_fraction(out: &mut Vec<u8>, fraction: Frac) -> Result<(), AllocError>
    ensures { OnOk result (out.new.items ≡ out.old.items ++ fraction_text fraction) }
{
    let mut text = [0; 96];
    let size = print_frac(fraction, &mut text);
    append(out, &text[..size])
}

fn append_value(out: &mut Vec<u8>, name: &Name, value: Frac) -> Result<(), AllocError>
    ensures { OnOk result (out.new.items ≡ out.old.items ++ value_line name.now value) }
{
    append(out, name.as_bytes())?;
    append(out, b" = ")?;
    append_fraction(out, value)?;
    append(out, b"\n")
}

#[tactic(auto, using(crate::proofs::ReportLemmas::reports))]
fn append_point(out: &mut Vec<u8>, variables: &[Variable], point: &[Frac]) -> Result<(), AllocError>
    ensures { OnOk result (out.new.items ≡ out.old.items ++ point_lines (map (λ v. v.name) variables.now) point.now) }
{
    for at in 0..variables.len().min(point.len()) {
        append_value(out, &variables[at].name, point[at])?;
    }
    Ok(())
}

/// The line of a step, where it is not 0.
fn append_step(out: &mut Vec<u8>, name: &Name, step: Frac) -> Result<(), AllocError>
    ensures { OnOk result (out.new.items ≡ out.old.items ++ step_line name.now step) }
{
    if step.num != 0 {
        append(out, b"step ")?;
        append_value(out, name, step)?;
    }
    Ok(())
}

#[tactic(auto, using(crate::proofs::ReportLemmas::reports))]
fn append_steps(out: &mut Vec<u8>, variables: &[Variable], step: &[Frac]) -> Result<(), AllocError>
    ensures { OnOk result (out.new.items ≡ out.old.items ++ step_lines (map (λ v. v.name) variables.now) step.now) }
{
    for at in 0..variables.len().min(step.len()) {
        append_step(out, &variables[at].name, step[at])?;
    }
    Ok(())
}

#[tactic(auto, using(crate::proofs::ReportLemmas::reports))]
fn append_factors(out: &mut Vec<u8>, factors: &[i128]) -> Result<(), AllocError>
    ensures { OnOk result (out.new.items ≡ out.old.items ++ factors_text factors.now) }
{
    for factor in factors {
        append(out, b" ")?;
        append_number(out, *factor)?;
    }
    Ok(())
}
