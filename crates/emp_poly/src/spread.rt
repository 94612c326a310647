//! The coefficients of a polynomial by their products of variables.
ghost use Rattle.std.specs.Prelude.{IfOk, OnOk};
ghost use Rattle.emp_poly.specs.Spread.{IsAt, PutsConstant, PutsLinear, PutsSquare, AreCoefficients};

use crate::quad::Quad;
use emp_ast::tree::VarId;
use emp_expand::coefficients::Coefficients;
use emp_num::frac::Frac;
use std::alloc::{AllocError, Global};

/// The number, none where it is 0.
pub fn kept(value: Frac) -> Option<Frac>
    ensures { IsAt result value }
{
    if value.num == 0 { None } else { Some(value) }
}

/// Puts the constant in, where it is not 0.
fn put_constant(all: &mut Coefficients, value: Frac) -> Result<(), AllocError>
    ensures { OnOk result (PutsConstant value all.old all.new) }
{
    all.set((None, None), kept(value))?;
    Ok(())
}

/// Puts linear terms in, the first one last.
fn put_linear(all: &mut Coefficients, terms: &[(VarId, Frac)]) -> Result<(), AllocError>
    ensures { OnOk result (PutsLinear terms.now all.old all.new) }
{
    let mut left = terms.len();
    while left > 0 {
        left -= 1;
        let term = terms[left];
        all.put((None, Some(term.0.at)), term.1)?;
    }
    Ok(())
}

/// Puts quadratic terms in, the first one last.
fn put_square(all: &mut Coefficients, terms: &[(VarId, VarId, Frac)]) -> Result<(), AllocError>
    ensures { OnOk result (PutsSquare terms.now all.old all.new) }
{
    let mut left = terms.len();
    while left > 0 {
        left -= 1;
        let term = terms[left];
        all.put((Some(term.0.at), Some(term.1.at)), term.2)?;
    }
    Ok(())
}

/// The coefficients of the polynomial that are not 0.
pub fn coefficients_of(alloc: Global, quad: &Quad) -> Result<Coefficients, AllocError>
    ensures { IfOk result (λ c. AreCoefficients quad.now c) }
{
    let mut all = Coefficients::new(alloc);
    put_constant(&mut all, quad.constant)?;
    put_linear(&mut all, quad.linear.as_slice())?;
    put_square(&mut all, quad.square.as_slice())?;
    Ok(all)
}
