//! The summary of a market.
ghost use Rattle.std.specs.Prelude.{◌≡◌, ◌≤◌, ◌++◌, OnOk, IfOk};
ghost use Rattle.emp_makes.specs.Makes.{count_line, sum_line, summary};

use crate::sums::Totals;
use emp_num::frac::Frac;
use emp_report::report::{append, append_count, append_fraction};
use std::alloc::{AllocError, Global};

/// A line with a sum behind its word.
fn append_sum(out: &mut Vec<u8>, word: &[u8], sum: Frac) -> Result<(), AllocError>
    ensures { OnOk result (out.new.items ≡ out.old.items ++ sum_line word.now sum) }
{
    append(out, word)?;
    append(out, b" ")?;
    append_fraction(out, sum)?;
    append(out, b"\n")
}

/// The counts of firms and of their markets, the sum of the outputs and that of the profits, a line for each.
///
/// The only error is that no memory is left.
pub fn summary(alloc: Global, firms: u64, totals: &Totals) -> Result<Vec<u8>, AllocError>
    requires { firms ≤ 40 }
    ensures { IfOk result (λ v. v.items ≡ summary firms totals.now.output totals.now.profit) }
{
    let mut out = Vec::new(alloc);
    append_count(&mut out, b"firms ", firms)?;
    append_count(&mut out, b"markets ", (firms + 1) / 2)?;
    append_sum(&mut out, b"output", totals.output)?;
    append_sum(&mut out, b"profit", totals.profit)?;
    Ok(out)
}
