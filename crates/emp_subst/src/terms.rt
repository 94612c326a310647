//! Polynomials from polynomials: without a variable, and negated.
ghost use Rattle.std.specs.Prelude.{◌≡◌, ◌*ℤ◌, true, not, nat_eq, pos, [], filter, IfOk};
ghost use Rattle.emp_form.specs.Form.{Form, variable_form, form_of};
ghost use Rattle.emp_poly.specs.Terms.{is_linear, is_square};
ghost use Rattle.emp_poly.specs.Quads.{HasForm};
ghost use Rattle.emp_poly.specs.Gradient.{LinHasForm};
ghost use Rattle.emp_subst.specs.Stages.{sign_of, LinearTimes, SquareTimes, IsTimes, IsWithout};

use emp_ast::tree::VarId;
use emp_expand::coefficients::zero;
use emp_list::memory::NoMemory;
use emp_list::seq::Seq;
use emp_num::frac::Frac;
use emp_poly::quad::{Lin, Quad};
use std::alloc::Global;

/// The number or its opposite.
fn signed(value: Frac, negate: bool) -> Frac
    ensures num { result.num ≡ sign_of negate *ℤ value.num }
    ensures den { result.den ≡ value.den }
{
    if negate { Frac::neg(value) } else { value }
}

/// The linear terms, or their opposites.
#[tactic(auto, using(crate::proofs::Signs::timing))]
fn signed_linear(
    alloc: Global,
    terms: &[(VarId, Frac)],
    negate: bool,
) -> Result<Seq<(VarId, Frac)>, NoMemory>
    ensures { IfOk result (λ list. LinearTimes (sign_of negate) terms.now list) }
{
    let mut list = Seq::new(alloc);
    for at in 0..terms.len() {
        let term = terms[at];
        list.push((term.0, signed(term.1, negate)))?;
    }
    Ok(list)
}

/// The quadratic terms, or their opposites.
#[tactic(auto, using(crate::proofs::Signs::timing))]
fn signed_square(
    alloc: Global,
    terms: &[(VarId, VarId, Frac)],
    negate: bool,
) -> Result<Seq<(VarId, VarId, Frac)>, NoMemory>
    ensures { IfOk result (λ list. SquareTimes (sign_of negate) terms.now list) }
{
    let mut list = Seq::new(alloc);
    for at in 0..terms.len() {
        let term = terms[at];
        list.push((term.0, term.1, signed(term.2, negate)))?;
    }
    Ok(list)
}

/// The polynomial of a constant and of terms in order.
fn quad_of(constant: Frac, linear: Seq<(VarId, Frac)>, square: Seq<(VarId, VarId, Frac)>) -> Quad
    requires linear { is_linear linear ≡ true }
    requires square { is_square square ≡ true }
    ensures constant { result.constant ≡ constant }
    ensures linear { result.linear ≡ linear }
    ensures square { result.square ≡ square }
{
    Quad {
        constant,
        linear,
        square,
    }
}

/// The polynomial, or its opposite.
#[tactic(auto, using(crate::proofs::Signs::scaling))]
pub fn times(alloc: Global, quad: &Quad, negate: bool) -> Result<Quad, NoMemory>
    ensures { IfOk result (λ q. IsTimes (sign_of negate) quad.now q) }
{
    let linear = signed_linear(alloc, quad.linear.as_slice(), negate)?;
    let square = signed_square(alloc, quad.square.as_slice(), negate)?;
    Ok(quad_of(signed(quad.constant, negate), linear, square))
}

/// The linear terms without that of the variable.
#[tactic(auto, using(crate::proofs::Putting::putting))]
fn terms_without(
    alloc: Global,
    terms: &[(VarId, Frac)],
    w: VarId,
) -> Result<Seq<(VarId, Frac)>, NoMemory>
    ensures { IfOk result (λ list. list ≡ filter (λ t. not (nat_eq t.0.at w.at)) terms.now) }
{
    let mut list = Seq::new(alloc);
    for at in 0..terms.len() {
        let term = terms[at];
        if term.0.at != w.at {
            list.push(term)?;
        }
    }
    Ok(list)
}

/// The polynomial without the linear term of the variable.
#[tactic(auto, using(crate::proofs::Signs::leaving))]
pub fn without(alloc: Global, quad: &Quad, w: VarId) -> Result<Quad, NoMemory>
    ensures { IfOk result (λ q. IsWithout w.at quad.now q) }
{
    let linear = terms_without(alloc, quad.linear.as_slice(), w)?;
    let square = quad.square.copy(alloc)?;
    Ok(quad_of(quad.constant, linear, square))
}

/// The variable itself.
pub fn variable_quad(alloc: Global, w: VarId) -> Result<Quad, NoMemory>
    ensures { IfOk result (λ q. HasForm q (variable_form w.at)) }
{
    let mut linear = Seq::new(alloc);
    linear.push((w, Frac::reduced(1, 1)))?;
    Ok(quad_of(zero(), linear, Seq::new(alloc)))
}

/// The constant and the linear terms.
pub fn linear_part(alloc: Global, quad: &Quad) -> Result<Lin, NoMemory>
    ensures { IfOk result (λ l. (f : Form) → HasForm quad.now f → LinHasForm l f) }
{
    let linear = quad.linear.copy(alloc)?;
    Ok(Lin {
        constant: quad.constant,
        linear,
    })
}

/// The linear polynomial as one of degree at most 2.
pub fn as_quad(alloc: Global, lin: &Lin) -> Result<Quad, NoMemory>
    ensures constant { IfOk result (λ q. q.constant ≡ lin.now.constant) }
    ensures linear { IfOk result (λ q. q.linear ≡ lin.now.linear) }
    ensures square { IfOk result (λ q. q.square ≡ []) }
{
    let linear = lin.linear.copy(alloc)?;
    Ok(quad_of(lin.constant, linear, Seq::new(alloc)))
}

/// The polynomial 0.
pub fn nothing(alloc: Global) -> Lin
    ensures { LinHasForm result (form_of (pos 0) (pos 1)) }
{
    Lin {
        constant: zero(),
        linear: Seq::new(alloc),
    }
}
