//! Powers of polynomials.
ghost use Rattle.std.specs.Prelude.{◌≡◌, ◌≤◌, pos};
ghost use Rattle.emp_form.specs.Form.{Form};
ghost use Rattle.emp_expand.specs.Degrees.{OnlyConstant, OnlyLinear};
ghost use Rattle.emp_expand.specs.Powers.{PowerRuns, NodeRaised, PowerGives};

use crate::coefficients::{Coefficients, Degree};
use crate::products::{NodeFault, node_result, times};
use crate::sums::{PartFault, finished};
use emp_num::exact::Wide;
use emp_num::frac::Frac;
use std::alloc::Global;

/// A number, which is finished.
pub fn constant(alloc: Global, value: Frac) -> Result<Coefficients, PartFault>
    ensures { ConstantGives value result }
{
    let mut all = Coefficients::new(alloc);
    let Ok(found) = finished(value) else {
        return Err(PartFault::Wide);
    };
    let Ok(()) = all.set((None, None), found) else {
        return Err(PartFault::NoMemory);
    };
    Ok(all)
}

ghost use Rattle.emp_expand.specs.Powers.{ConstantGives};

/// The power of a fraction, from the left; only the numbers that it forms are tested.
fn power_of(base: Frac, exponent: u8) -> Result<Frac, Wide>
    requires { 1 ≤ exponent }
    ensures { PowerRuns base exponent result }
{
    let mut value = base;
    for i in 1..exponent {
        let Ok(next) = Frac::mul(value, base) else {
            return Err(Wide);
        };
        value = next;
    }
    Ok(value)
}

/// The power 0, which is 1.
fn unit(alloc: Global) -> Result<Coefficients, NodeFault>
    ensures { (f : Form) → NodeRaised f 0 result }
{
    let one = constant(alloc, Frac::reduced(1, 1));
    node_result(one)
}

/// The power of a constant, the exponent 1 or more.
fn constant_power(
    alloc: Global,
    base: &Coefficients,
    exponent: u8,
) -> Result<Coefficients, NodeFault>
    requires only { OnlyConstant base.now }
    requires some { 1 ≤ exponent }
    ensures { PowerGives base.now exponent result }
{
    let Ok(value) = power_of(base.fraction((None, None)), exponent) else {
        return Err(NodeFault::Wide);
    };
    let found = constant(alloc, value);
    node_result(found)
}

/// The square of a linear polynomial.
fn square(alloc: Global, base: &Coefficients) -> Result<Coefficients, NodeFault>
    requires { OnlyLinear base.now }
    ensures { PowerGives base.now 2 result }
{
    let all = times(alloc, base, base);
    node_result(all)
}

/// The power of a polynomial.
pub fn power(alloc: Global, base: Coefficients, exponent: u8) -> Result<Coefficients, NodeFault>
    ensures { PowerGives base exponent result }
{
    if exponent == 0 {
        return unit(alloc);
    }
    if exponent == 1 {
        return Ok(base);
    }
    match base.degree() {
        Degree::Constant => constant_power(alloc, &base, exponent),
        Degree::Linear => {
            if exponent == 2 {
                square(alloc, &base)
            } else {
                Err(NodeFault::Degree)
            }
        }
        Degree::Quadratic => Err(NodeFault::Degree),
    }
}
