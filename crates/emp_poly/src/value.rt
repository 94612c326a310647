//! The value of a polynomial at a point.
ghost use Rattle.std.specs.Prelude.{◌≡◌, ◌<◌, Ok, length, IfOk};
ghost use Rattle.emp_num.specs.Ratio.{SameRatio};
ghost use Rattle.emp_num.specs.Point.{Point, StandsFor};
ghost use Rattle.emp_form.specs.Calls.{Formula, Runs};
ghost use Rattle.emp_poly.specs.Quads.{as_ratio, quad_value};
ghost use Rattle.emp_poly.specs.Written.{entry, linear_term, square_term, linear_from, square_from, written_value, LinearWithin, SquareWithin, IsWithin};

use crate::quad::Quad;
use emp_ast::tree::VarId;
use emp_num::exact::Wide;
use emp_num::frac::Frac;

/// The coordinate of a variable.
fn coordinate(point: &[Frac], of: VarId) -> Frac
    requires { of.at < length point.now }
    ensures { result ≡ entry point.now of.at }
{
    point[of.at as usize]
}

/// The sum with one more linear term.
fn add_linear(sum: Frac, term: (VarId, Frac), point: &[Frac]) -> Result<Frac, Wide>
    requires { term.0.at < length point.now }
    ensures { (s : Formula) → Runs s (Ok sum) → Runs (linear_term s term point.now) result }
{
    let factor = coordinate(point, term.0);
    let Ok(product) = Frac::mul(term.1, factor) else {
        return Err(Wide);
    };
    Frac::add(sum, product)
}

/// The sum with one more quadratic term.
fn add_square(sum: Frac, term: (VarId, VarId, Frac), point: &[Frac]) -> Result<Frac, Wide>
    requires first { term.0.at < length point.now }
    requires second { term.1.at < length point.now }
    ensures { (s : Formula) → Runs s (Ok sum) → Runs (square_term s term point.now) result }
{
    let first = coordinate(point, term.0);
    let second = coordinate(point, term.1);
    let Ok(coordinates) = Frac::mul(first, second) else {
        return Err(Wide);
    };
    let Ok(product) = Frac::mul(term.2, coordinates) else {
        return Err(Wide);
    };
    Frac::add(sum, product)
}

/// The sum with the linear terms, in order.
fn with_linear(start: Frac, terms: &[(VarId, Frac)], point: &[Frac]) -> Result<Frac, Wide>
    requires { LinearWithin (length point.now) terms.now }
    ensures { (s : Formula) → Runs s (Ok start) → Runs (linear_from s terms.now point.now) result }
{
    let mut sum = start;
    for k in 0..terms.len() {
        let Ok(next) = add_linear(sum, terms[k], point) else {
            return Err(Wide);
        };
        sum = next;
    }
    Ok(sum)
}

/// The sum with the quadratic terms, in order.
fn with_square(start: Frac, terms: &[(VarId, VarId, Frac)], point: &[Frac]) -> Result<Frac, Wide>
    requires { SquareWithin (length point.now) terms.now }
    ensures { (s : Formula) → Runs s (Ok start) → Runs (square_from s terms.now point.now) result }
{
    let mut sum = start;
    for k in 0..terms.len() {
        let Ok(next) = add_square(sum, terms[k], point) else {
            return Err(Wide);
        };
        sum = next;
    }
    Ok(sum)
}

/// The value at a point that has a coordinate for each variable of the polynomial. `Wide` exactly where a call of the written
/// fold is: from the constant, adding coefficient times coordinate in order of variables, then coefficient times the product
/// of the two coordinates in order of pairs (`specs/Written.antt`).
pub fn at(quad: &Quad, point: &[Frac]) -> Result<Frac, Wide>
    requires within { IsWithin (length point.now) quad.now }
    ensures fold { Runs (written_value quad.now point.now) result }
    ensures value { IfOk result (λ r. (p : Point) → StandsFor point.now p → SameRatio (as_ratio r) (quad_value p quad.now)) }
{
    let Ok(sum) = with_linear(quad.constant, quad.linear.as_slice(), point) else {
        return Err(Wide);
    };
    let Ok(value) = with_square(sum, quad.square.as_slice(), point) else {
        return Err(Wide);
    };
    Ok(value)
}
