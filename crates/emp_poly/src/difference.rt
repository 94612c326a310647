//! The difference of two polynomials.
ghost use Rattle.std.specs.Prelude.{IfOk, OnOk};
ghost use Rattle.emp_expand.specs.Stands.{IsSmall};
ghost use Rattle.emp_poly.specs.Quads.{IsSmallQuad};
ghost use Rattle.emp_poly.specs.Difference.{IsDifference};
ghost use Rattle.emp_poly.specs.Spread.{IsLess, AreSmall, TakesAway};

use crate::collect::collected;
use crate::quad::Quad;
use crate::spread::{coefficients_of, kept};
use emp_expand::coefficients::Coefficients;
use emp_list::memory::NoMemory;
use emp_num::frac::Frac;
use std::alloc::{AllocError, Global};

/// The difference of two coefficients, none where it is 0.
fn less(left: Frac, right: Frac) -> Option<Frac>
    requires left { IsSmall left }
    requires right { IsSmall right }
    ensures { IsLess left right result }
{
    match Frac::sub(left, right) {
        Ok(value) => kept(value),
        Err(_) => unreachable!(),
    }
}

/// Takes the other coefficients away.
fn take_away(all: &mut Coefficients, other: Coefficients) -> Result<(), AllocError>
    requires left { AreSmall all.old }
    requires right { AreSmall other }
    ensures { OnOk result (TakesAway all.old other all.new) }
{
    let mut rest = other;
    while let Some((at, value)) = rest.pop() {
        let found = less(all.fraction(at), value);
        all.set(at, found)?;
    }
    Ok(())
}

/// Left less right, coefficient by coefficient. It is never wide: numbers below 2^62 make none of 2^126.
pub fn difference(alloc: Global, left: &Quad, right: &Quad) -> Result<Quad, NoMemory>
    requires left { IsSmallQuad left.now }
    requires right { IsSmallQuad right.now }
    ensures { IfOk result (λ d. IsDifference left.now right.now d) }
{
    let mut all = coefficients_of(alloc, left)?;
    let other = coefficients_of(alloc, right)?;
    take_away(&mut all, other)?;
    let quad = collected(alloc, &all)?;
    Ok(quad)
}
