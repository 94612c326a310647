//! The polynomials of objectives.
ghost use Rattle.std.specs.Prelude.{◌≡◌, ◌<ℤ◌, pos, true, false, length, IfOk};
ghost use Rattle.emp_poly.specs.Quads.{HasForm};
ghost use Rattle.emp_form.specs.Form.{Form};
ghost use Rattle.emp_problem.specs.Left.{signed};
ghost use Rattle.emp_subst.specs.Stages.{IsSolved, SolvesBy, EntryFits, is_max};

use crate::terms::{times, variable_quad, without};
use emp_ast::model::Sense;
use emp_ast::tree::{EquId, VarId};
use emp_list::memory::NoMemory;
use emp_num::frac::Frac;
use emp_poly::gradient::linear_of;
use emp_poly::quad::Quad;
use std::alloc::Global;

/// Whether the number is above 0.
fn is_positive(value: Frac) -> bool
    ensures above { result ≡ true → pos 0 <ℤ value.num }
    ensures not_above { result ≡ false → value.num <ℤ pos 1 }
{
    value.num > 0
}

/// What an equation gives for a summand of its sides, by their difference.
fn solved(alloc: Global, difference: &Quad, w: VarId) -> Result<Quad, NoMemory>
    ensures { IfOk result (λ q. IsSolved w.at difference.now q) }
{
    let sign = linear_of(difference.linear.as_slice(), w);
    let rest = without(alloc, difference, w)?;
    times(alloc, &rest, is_positive(sign))
}

/// What its definition gives for an objective, by the differences of the equations: the variable itself where it has none.
pub fn given(
    alloc: Global,
    differences: &[Quad],
    definition: Option<EquId>,
    w: VarId,
) -> Result<Quad, NoMemory>
    requires within { EntryFits (length differences.now) definition }
    ensures { IfOk result (λ q. SolvesBy differences.now w.at definition q) }
{
    match definition {
        Some(e) => solved(alloc, &differences[e.at as usize], w),
        None => variable_quad(alloc, w),
    }
}

/// Whether the objective is to be greatest.
pub fn is_max(sense: Sense) -> bool
    ensures { result ≡ is_max sense }
{
    match sense {
        Sense::Min => false,
        Sense::Max => true,
    }
}

/// The polynomial as it is to be least.
#[tactic(auto, using(crate::proofs::Givens::signed_has))]
pub fn goal(alloc: Global, sense: Sense, given: &Quad) -> Result<Quad, NoMemory>
    ensures { IfOk result (λ q. (f : Form) → HasForm given.now f → HasForm q (signed sense f)) }
{
    times(alloc, given, is_max(sense))
}
