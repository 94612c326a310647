//! Rows that decide.
ghost use Rattle.std.specs.Prelude.{◌≡◌, ◌<◌, pos, ◌*ℤ◌, length, replicate, IfOk};
ghost use Rattle.std.specs.List.{All};
ghost use Rattle.emp_num.specs.Exact.{IsNarrow};
ghost use Rattle.emp_dict.specs.Dictionary.{cell_at, line_at};
ghost use Rattle.emp_dict.specs.Dicts.{dictionary_of};
ghost use Rattle.emp_decide.specs.Reads.{bound_factors, bound_weight, factors, farkas_factors, put, spread, way};
ghost use Rattle.emp_decide.specs.Rows.{HasPlace};

use emp_dict::dict::Dict;
use emp_dict::label::Label;
use emp_list::memory::NoMemory;
use emp_list::seq::Seq;
use std::alloc::Global;

/// So many zeros.
#[tactic(auto, using(crate::proofs::Reading::zeroing))]
fn zeros(alloc: Global, count: usize) -> Result<Seq<i128>, NoMemory>
    ensures { IfOk result (λ zs. zs ≡ replicate count (pos 0)) }
{
    let mut out = Seq::new(alloc);
    for at in 0..count {
        out.push(0)?;
    }
    Ok(out)
}

/// Sets the factor of a label, where it is that of a quantity.
fn put(factors: &mut Seq<i128>, label: Label, factor: i128)
    requires { HasPlace (length factors.old) label }
    ensures { factors.new ≡ put label factor factors.old }
{
    if let Label::Quantity(k) = label {
        factors.set(k as usize - 1, factor);
    }
}

/// The number where `up` is true, else its opposite.
pub fn signed(up: bool, number: i128) -> i128
    requires { IsNarrow number }
    ensures value { result ≡ way up *ℤ number }
    ensures narrow { IsNarrow result }
{
    if up { number } else { -number }
}

/// The cell where `up` is true, else its opposite.
pub fn signed_cell(dict: &Dict, row: usize, column: usize, up: bool) -> i128
    requires row { row < length (dictionary_of dict.now).rows }
    requires column { column < length (dictionary_of dict.now).columns }
    ensures value { result ≡ way up *ℤ cell_at (dictionary_of dict.now) row column }
    ensures narrow { IsNarrow result }
{
    signed(up, dict.cell(row, column))
}

/// `own` for the row's quantity, for each column's its cell, or the opposite of it, and 0 for all others.
fn factors(
    alloc: Global,
    dict: &Dict,
    row: usize,
    own: i128,
    up: bool,
) -> Result<Seq<i128>, NoMemory>
    requires row { row < length (dictionary_of dict.now).rows }
    requires own { IsNarrow own }
    ensures value { IfOk result (λ fs. fs ≡ factors (dictionary_of dict.now) row own (way up)) }
    ensures narrow { IfOk result (All IsNarrow) }
{
    let mut out = zeros(alloc, dict.quantities())?;
    put(&mut out, dict.row_label(row), own);
    for column in 0..dict.columns() {
        put(
            &mut out,
            dict.column_label(column),
            signed_cell(dict, row, column, up),
        );
    }
    Ok(out)
}

/// The factors of a row that cannot be moved to 0, one for each quantity.
///
/// They are those of `farkas_factors` in `specs/Reads.antt`. The only error is that no memory is left.
pub fn farkas_row(alloc: Global, dict: &Dict, row: usize) -> Result<Seq<i128>, NoMemory>
    requires { row < length (dictionary_of dict.now).rows }
    ensures value { IfOk result (λ fs. fs ≡ farkas_factors (dictionary_of dict.now) row) }
    ensures narrow { IfOk result (All IsNarrow) }
{
    if dict.constant(row) < 0 {
        factors(alloc, dict, row, dict.denom(row), false)
    } else {
        factors(alloc, dict, row, -dict.denom(row), true)
    }
}

/// The factors of the objective's row where the objective is least, one for each quantity. The weight is the row's denominator.
///
/// They are those of `bound_factors` in `specs/Reads.antt`. The only error is that no memory is left.
pub fn bound_row(alloc: Global, dict: &Dict, row: usize) -> Result<Seq<i128>, NoMemory>
    requires { row < length (dictionary_of dict.now).rows }
    ensures value { IfOk result (λ fs. fs ≡ bound_factors (dictionary_of dict.now) row) }
    ensures narrow { IfOk result (All IsNarrow) }
{
    factors(alloc, dict, row, 0, true)
}
