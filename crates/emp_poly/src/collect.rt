//! A polynomial from its coefficients.
ghost use Rattle.std.specs.Prelude.{◌≡◌, true, IfOk, OnOk};
ghost use Rattle.emp_form.specs.Form.{Form};
ghost use Rattle.emp_poly.specs.Parts.{Takes, Collected, StandsLoosely, Collects};
ghost use Rattle.emp_poly.specs.Terms.{is_linear, is_square};
ghost use Rattle.emp_expand.specs.Factors.{fractions};

use crate::quad::Quad;
use emp_ast::tree::VarId;
use emp_expand::coefficients::{Coefficients, Product};
use emp_list::seq::Seq;
use emp_num::frac::Frac;
use std::alloc::{AllocError, Global};

/// The terms of a polynomial.
#[derive(Drop)]
struct Parts {
    linear: Seq<(VarId, Frac)>,
    square: Seq<(VarId, VarId, Frac)>,
}

impl Parts {
    /// Puts one more coefficient at the end of its list.
    fn take(&mut self, at: Product, value: Frac) -> Result<(), AllocError>
        ensures { OnOk result (Takes at.0 at.1 value self.old self.new) }
    {
        match at {
            (None, None) => Ok(()),
            (None, Some(i)) => {
                self.linear.push((VarId { at: i }, value))?;
                Ok(())
            }
            (Some(i), Some(j)) => {
                self.square.push((VarId { at: i }, VarId { at: j }, value))?;
                Ok(())
            }
            (Some(_), None) => Ok(()),
        }
    }
}

/// The terms at the listed products of variables.
fn parts_of(alloc: Global, all: &Coefficients, listed: &[Product]) -> Result<Parts, AllocError>
    ensures { IfOk result (λ p. Collected (fractions all.now) listed.now p) }
{
    let mut parts = Parts {
        linear: Seq::new(alloc),
        square: Seq::new(alloc),
    };
    for at in 0..listed.len() {
        let value = all.fraction(listed[at]);
        parts.take(listed[at], value)?;
    }
    Ok(parts)
}

/// The polynomial of a constant and of terms in order.
fn quad_of(constant: Frac, parts: Parts) -> Quad
    requires linear { is_linear parts.linear ≡ true }
    requires square { is_square parts.square ≡ true }
    ensures constant { result.constant ≡ constant }
    ensures linear { result.linear ≡ parts.linear }
    ensures square { result.square ≡ parts.square }
{
    let Parts { linear, square } = parts;
    Quad {
        constant,
        linear,
        square,
    }
}

/// The coefficients in their order; their numbers may be large.
pub fn collected(alloc: Global, all: &Coefficients) -> Result<Quad, AllocError>
    requires { (f : Form) × StandsLoosely all.now f }
    ensures { IfOk result (λ q. Collects all.now q) }
{
    let listed = all.products(alloc)?;
    let parts = parts_of(alloc, all, listed.as_slice())?;
    let quad = quad_of(all.fraction((None, None)), parts);
    Ok(quad)
}
