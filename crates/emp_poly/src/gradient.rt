//! The derivative of a polynomial by a variable.
ghost use Rattle.std.specs.Prelude.{◌≡◌, true, ◌++◌, OnOk};
ghost use Rattle.emp_poly.specs.Terms.{is_linear};
ghost use Rattle.emp_num.specs.Whole.{whole};
ghost use Rattle.emp_poly.specs.Quads.{linear_at, square_at};
ghost use Rattle.emp_poly.specs.Gradient.{derived_one, GradientGives};

use crate::quad::{Lin, Quad};
use emp_ast::tree::VarId;
use emp_expand::coefficients::zero;
use emp_list::seq::Seq;
use emp_num::frac::Frac;
use std::alloc::{AllocError, Global};

/// Why there is no derivative. `Wide`: a doubled coefficient is wide.
#[derive(Clone, Copy, Debug, PartialEq, Eq)]
pub enum PartFault {
    Wide,
    NoMemory,
}

/// The coefficient of a variable, 0 where it has none.
pub fn linear_of(terms: &[(VarId, Frac)], of: VarId) -> Frac
    ensures { result ≡ linear_at terms.now of.at }
{
    for k in 0..terms.len() {
        if terms[k].0.at == of.at {
            return terms[k].1;
        }
    }
    zero()
}

/// The coefficient of the square of a variable, 0 where it has none.
pub fn square_of(terms: &[(VarId, VarId, Frac)], of: VarId) -> Frac
    ensures { result ≡ square_at terms.now of.at of.at }
{
    for k in 0..terms.len() {
        if terms[k].0.at == of.at && terms[k].1.at == of.at {
            return terms[k].2;
        }
    }
    zero()
}

/// Two times one.
fn two() -> Frac
    ensures { result ≡ whole 2 }
{
    Frac::reduced(2, 1)
}

/// Puts the derivative of a quadratic term, where it has the variable, at the end of the linear terms.
fn derive(
    linear: &mut Seq<(VarId, Frac)>,
    term: (VarId, VarId, Frac),
    var: VarId,
    double: Frac,
) -> Result<(), AllocError>
    ensures { OnOk result (linear.new ≡ linear.old ++ derived_one var.at double term) }
{
    if term.0.at == var.at {
        if term.1.at == var.at {
            linear.push((term.1, double))?;
            return Ok(());
        }
        linear.push((term.1, term.2))?;
        return Ok(());
    }
    if term.1.at == var.at {
        linear.push((term.0, term.2))?;
        return Ok(());
    }
    Ok(())
}

/// The polynomial of a constant and of terms in order.
fn lin_of(constant: Frac, linear: Seq<(VarId, Frac)>) -> Lin
    requires { is_linear linear ≡ true }
    ensures constant { result.constant ≡ constant }
    ensures linear { result.linear ≡ linear }
{
    Lin { constant, linear }
}

/// The derivative by a variable. `Wide` exactly where twice the coefficient of the variable's square is wide.
pub fn gradient(alloc: Global, quad: &Quad, var: VarId) -> Result<Lin, PartFault>
    ensures { GradientGives quad.now var.at result }
{
    let own = square_of(quad.square.as_slice(), var);
    let Ok(double) = Frac::mul(two(), own) else {
        return Err(PartFault::Wide);
    };
    let constant = linear_of(quad.linear.as_slice(), var);
    let mut linear = Seq::new(alloc);
    for k in 0..quad.square.len() {
        let Ok(()) = derive(&mut linear, *quad.square.get(k), var, double) else {
            return Err(PartFault::NoMemory);
        };
    }
    let lin = lin_of(constant, linear);
    Ok(lin)
}
