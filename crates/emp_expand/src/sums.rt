//! Sums and differences of coefficients, in place.
ghost use Rattle.std.specs.Prelude.{◌≡◌, ◌≢◌, Some};
ghost use Rattle.emp_form.specs.Calls.{Runs};
ghost use Rattle.emp_expand.specs.Steps.{Finishes, sum_of, StepGives, GathersTo};
ghost use Rattle.emp_expand.specs.Factors.{or_zero};

use crate::coefficients::{Coefficients, zero};
use emp_num::exact::Wide;
use emp_num::frac::Frac;

/// A finished coefficient has its numbers below this.
pub const LARGE: i128 = 4611686018427387904;

/// Why there is no result.
#[derive(Clone, Copy, Debug, PartialEq, Eq)]
pub enum PartFault {
    NoMemory,
    Wide,
}

/// The coefficient, none where it is 0, and `Wide` where one of its numbers is large.
pub fn finished(value: Frac) -> Result<Option<Frac>, Wide>
    ensures { Finishes value result }
{
    if value.num == 0 {
        return Ok(None);
    }
    if -LARGE < value.num && value.num < LARGE && value.den < LARGE {
        Ok(Some(value))
    } else {
        Err(Wide)
    }
}

fn or_zero(value: Option<Frac>) -> Frac
    ensures { result ≡ or_zero value }
{
    match value {
        Some(found) => found,
        None => zero(),
    }
}

/// The sum or the difference.
fn sum_of(minus: bool, left: Frac, right: Frac) -> Result<Frac, Wide>
    ensures { Runs (sum_of minus left right) result }
{
    if minus {
        Frac::sub(left, right)
    } else {
        Frac::add(left, right)
    }
}

/// The finished sum or difference of a coefficient that may be there and one that is.
fn step(minus: bool, left: Option<Frac>, right: Frac) -> Result<Option<Frac>, Wide>
    ensures { StepGives minus left (Some right) result }
{
    let value = sum_of(minus, or_zero(left), right)?;
    finished(value)
}

impl Coefficients {
    /// Adds the other coefficients or takes them away, in time of their count.
    pub fn gather(&mut self, other: Coefficients, minus: bool) -> Result<(), PartFault>
        ensures { GathersTo minus self.old other result self.new }
    {
        let mut rest = other;
        while let Some((at, value)) = rest.pop() {
            let Ok(sum) = step(minus, self.get(at), value) else {
                return Err(PartFault::Wide);
            };
            let Ok(()) = self.set(at, sum) else {
                return Err(PartFault::NoMemory);
            };
        }
        Ok(())
    }
}
