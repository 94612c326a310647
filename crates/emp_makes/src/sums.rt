//! The sums of the outputs and of the profits of a market's firms.
ghost use Rattle.std.specs.Prelude.{◌≤◌, ◌<◌, ◌+◌, length, Ok};
ghost use Rattle.emp_makes.specs.Makes.{SumGives};
ghost use Rattle.emp_makes.specs.Making.{TotalsGive};

use emp_ast::tree::VarId;
use emp_expand::coefficients::zero;
use emp_num::frac::Frac;

/// The sum of the outputs of all firms, and that of their profits.
#[derive(Clone, Copy, Debug)]
pub struct Totals {
    pub output: Frac,
    pub profit: Frac,
}

/// The values of so many variables from one on, added in order to 0; or the first variable whose addition is wide.
fn sum(values: &[Frac], first: usize, count: usize) -> Result<Frac, VarId>
    requires within { first + count ≤ length values.now }
    requires numbers { first + count < 4294967296 }
    ensures { SumGives values.now first count result }
{
    let mut sum = zero();
    for k in 0..count {
        let at = first + k;
        let Ok(next) = Frac::add(sum, values[at]) else {
            return Err(VarId { at: at as u32 });
        };
        sum = next;
    }
    Ok(sum)
}

/// The sums over so many firms: the values are those of the profits, and then of the outputs. An error is the first variable
/// whose addition is wide, of the outputs before the profits.
pub fn total(values: &[Frac], firms: usize) -> Result<Totals, VarId>
    requires within { firms + firms ≤ length values.now }
    requires few { firms ≤ 40 }
    ensures { TotalsGive firms values.now result }
{
    let output = sum(values, firms, firms)?;
    let profit = sum(values, 0, firms)?;
    Ok(Totals { output, profit })
}
