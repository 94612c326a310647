//! The point of a dictionary, and the step of a column.
ghost use Rattle.std.specs.Prelude.{◌≡◌, ◌<◌, IfOk, length};
ghost use Rattle.emp_num.specs.FracSpec.{IsQuotient};
ghost use Rattle.emp_dict.specs.declared.label.Label.TheVariants.{Base};
ghost use Rattle.emp_dict.specs.Dicts.{dictionary_of};
ghost use Rattle.emp_decide.specs.Reads.{IsPointOf, IsStepOf, rate_of, value_of};

use crate::row::{signed, signed_cell};
use emp_dict::dict::Dict;
use emp_dict::label::Label;
use emp_list::memory::NoMemory;
use emp_list::seq::Seq;
use emp_num::frac::Frac;
use emp_rows::point::RowPoint;
use std::alloc::Global;

/// The value of a base variable at the dictionary's point.
#[tactic(auto, using(crate::proofs::Reading::found_below, crate::proofs::Reading::denom_positive))]
fn value(dict: &Dict, base: u32) -> Frac
    ensures { IsQuotient result (value_of (dictionary_of dict.now) (Base base)).top (value_of (dictionary_of dict.now) (Base base)).bottom }
{
    match dict.row_of(Label::Base(base)) {
        Some(row) => Frac::reduced(dict.constant(row), dict.denom(row)),
        None => Frac::reduced(0, 1),
    }
}

/// The point of a dictionary, where all columns are 0: one fraction for each base variable.
///
/// The only error is that no memory is left.
#[tactic(auto, using(crate::proofs::Reading::read_none, crate::proofs::Reading::read_more))]
pub fn point_of(alloc: Global, dict: &Dict) -> Result<RowPoint, NoMemory>
    ensures { IfOk result (IsPointOf (dictionary_of dict.now)) }
{
    let mut out = Seq::new(alloc);
    for at in 0..dict.columns() {
        out.push(value(dict, at as u32 + 1))?;
    }
    Ok(RowPoint::of(out))
}

/// The rate of a base variable along the step of a column.
#[tactic(auto, using(crate::proofs::Reading::found_below, crate::proofs::Reading::denom_positive))]
fn rate(dict: &Dict, column: usize, up: bool, base: u32) -> Frac
    requires { column < length (dictionary_of dict.now).columns }
    ensures { IsQuotient result (rate_of (dictionary_of dict.now) column up (Base base)).top (rate_of (dictionary_of dict.now) column up (Base base)).bottom }
{
    if let Some(row) = dict.row_of(Label::Base(base)) {
        return Frac::reduced(signed_cell(dict, row, column, up), dict.denom(row));
    }
    if dict.column_label(column) != Label::Base(base) {
        return Frac::reduced(0, 1);
    }
    Frac::reduced(signed(up, 1), 1)
}

/// The step of a column, which has rate 1 or -1 while the other columns stay: one fraction for each base variable.
///
/// The only error is that no memory is left.
#[tactic(auto, using(crate::proofs::Reading::read_none, crate::proofs::Reading::read_more))]
pub fn step_of(alloc: Global, dict: &Dict, column: usize, up: bool) -> Result<RowPoint, NoMemory>
    requires { column < length (dictionary_of dict.now).columns }
    ensures { IfOk result (IsStepOf (dictionary_of dict.now) column up) }
{
    let mut out = Seq::new(alloc);
    for at in 0..dict.columns() {
        out.push(rate(dict, column, up, at as u32 + 1))?;
    }
    Ok(RowPoint::of(out))
}
