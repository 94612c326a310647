//! Products and quotients of polynomials.
ghost use Rattle.std.specs.Prelude.{◌≡◌, ◌≢◌, true, pos, Some, None, IfOk, OnOk, MatchOption};
ghost use Rattle.emp_form.specs.Form.{Monomial};
ghost use Rattle.emp_form.specs.Calls.{Runs};
ghost use Rattle.emp_form.specs.Wide.{product, cross_at, scaled_at, square_at, product_at};
ghost use Rattle.emp_expand.specs.Factors.{fractions, factor, ordered, products_of};
ghost use Rattle.emp_expand.specs.Joins.{result_at, FillsOne, Fills, WithOne, WithEach, WithOthers, WithPairs, Covers, ProductGives, QuotientGives, OfPart, Kept};

use crate::coefficients::{Coefficients, Degree, Product, zero};
use crate::sums::{PartFault, finished};
use emp_num::exact::Wide;
use emp_num::frac::{DivFault, Frac};
use std::alloc::{AllocError, Global};

/// Why a node has no result.
#[derive(Clone, Copy, Debug, PartialEq, Eq)]
pub enum NodeFault {
    NoMemory,
    Degree,
    DivideByVariable,
    DivideByZero,
    Wide,
}

/// A coefficient of the one times one of the other.
fn product(left: &Coefficients, p: Product, right: &Coefficients, q: Product) -> Result<Frac, Wide>
    ensures { Runs (product (fractions left.now) p (fractions right.now) q) result }
{
    let first = left.fraction(p);
    let second = right.fraction(q);
    Frac::mul(first, second)
}

/// The part of the coefficient of two variables that comes from the linear coefficients.
fn cross_at(left: &Coefficients, right: &Coefficients, i: u32, j: u32) -> Result<Frac, Wide>
    ensures { Runs (cross_at (fractions left.now) (fractions right.now) i j) result }
{
    let first = (None, Some(i));
    let second = (None, Some(j));
    if i == j {
        return product(left, first, right, first);
    }
    let straight = product(left, first, right, second)?;
    let across = product(left, second, right, first)?;
    Frac::add(straight, across)
}

/// The part of the coefficient of two variables that comes from the constants.
fn scaled_at(left: &Coefficients, right: &Coefficients, i: u32, j: u32) -> Result<Frac, Wide>
    ensures { Runs (scaled_at (fractions left.now) (fractions right.now) i j) result }
{
    let one = (None, None);
    let both = (Some(i), Some(j));
    let ahead = product(left, one, right, both)?;
    let behind = product(left, both, right, one)?;
    Frac::add(ahead, behind)
}

/// The coefficient of two variables, the first not after the second.
fn square_at(left: &Coefficients, right: &Coefficients, i: u32, j: u32) -> Result<Frac, Wide>
    ensures { Runs (square_at (fractions left.now) (fractions right.now) i j) result }
{
    let crossed = cross_at(left, right, i, j)?;
    let scaled = scaled_at(left, right, i, j)?;
    Frac::add(crossed, scaled)
}

/// One coefficient of the product.
fn product_at(left: &Coefficients, right: &Coefficients, at: Product) -> Result<Frac, Wide>
    ensures { Runs (product_at (fractions left.now) (fractions right.now) at.0 at.1) result }
{
    let one = (None, None);
    match at {
        (None, None) => product(left, one, right, one),
        (None, Some(i)) => {
            let single = (None, Some(i));
            let ahead = product(left, one, right, single)?;
            let behind = product(left, single, right, one)?;
            Frac::add(ahead, behind)
        }
        (Some(_), None) => Ok(zero()),
        (Some(i), Some(j)) => {
            if j < i {
                Ok(zero())
            } else {
                square_at(left, right, i, j)
            }
        }
    }
}

/// One coefficient of the quotient by a constant that is not 0.
fn quotient_at(left: &Coefficients, right: &Coefficients, at: Product) -> Result<Frac, Wide>
    requires { (fractions right.now (None, None)).num ≢ pos 0 }
    ensures { Runs (result_at true (fractions left.now) (fractions right.now) at) result }
{
    let dividend = left.fraction(at);
    let divisor = right.fraction((None, None));
    match Frac::div(dividend, divisor) {
        Ok(quotient) => Ok(quotient),
        Err(_) => Err(Wide),
    }
}

/// One coefficient of the product or of the quotient.
fn result_at(
    over: bool,
    left: &Coefficients,
    right: &Coefficients,
    at: Product,
) -> Result<Frac, Wide>
    requires { over ≡ true → (fractions right.now (None, None)).num ≢ pos 0 }
    ensures { Runs (result_at over (fractions left.now) (fractions right.now) at) result }
{
    if over {
        quotient_at(left, right, at)
    } else {
        product_at(left, right, at)
    }
}

/// Puts the coefficient of the product or of the quotient at a product of variables.
fn fill(
    all: &mut Coefficients,
    over: bool,
    left: &Coefficients,
    right: &Coefficients,
    at: Product,
) -> Result<(), PartFault>
    requires { over ≡ true → (fractions right.now (None, None)).num ≢ pos 0 }
    ensures { FillsOne over left.now right.now at all.old result all.new }
{
    let Ok(value) = result_at(over, left, right, at) else {
        return Err(PartFault::Wide);
    };
    let Ok(found) = finished(value) else {
        return Err(PartFault::Wide);
    };
    let Ok(()) = all.set(at, found) else {
        return Err(PartFault::NoMemory);
    };
    Ok(())
}

/// The coefficients of the product or of the quotient at the listed products of variables.
fn filled(
    alloc: Global,
    over: bool,
    left: &Coefficients,
    right: &Coefficients,
    listed: &[Product],
) -> Result<Coefficients, PartFault>
    requires { over ≡ true → (fractions right.now (None, None)).num ≢ pos 0 }
    ensures { Fills over left.now right.now listed.now result }
{
    let mut all = Coefficients::new(alloc);
    for at in 0..listed.len() {
        if let Err(fault) = fill(&mut all, over, left, right, listed[at]) {
            return Err(fault);
        }
    }
    Ok(all)
}

/// The product of two variables.
fn ordered(first: u32, second: u32) -> Product
    ensures { result ≡ ordered first second }
{
    if second < first {
        (Some(second), Some(first))
    } else {
        (Some(first), Some(second))
    }
}

/// Lists the product of one variable with another, where the other is one.
fn with_one(first: u32, other: Product, out: &mut Vec<Product>) -> Result<(), AllocError>
    ensures { OnOk result (WithOne first other out.old.items out.new.items) }
{
    match other {
        (None, Some(second)) => {
            out.push(ordered(first, second))?;
            Ok(())
        }
        (None, None) => Ok(()),
        (Some(_), _) => Ok(()),
    }
}

/// Lists the products of one variable with the others.
fn with_each(first: u32, others: &[Product], out: &mut Vec<Product>) -> Result<(), AllocError>
    ensures { OnOk result (WithEach first others.now out.old.items out.new.items) }
{
    for at in 0..others.len() {
        with_one(first, others[at], out)?;
    }
    Ok(())
}

/// The same, where the first is a variable.
fn with_others(first: Product, others: &[Product], out: &mut Vec<Product>) -> Result<(), AllocError>
    ensures { OnOk result (WithOthers first others.now out.old.items out.new.items) }
{
    match first {
        (None, Some(variable)) => {
            with_each(variable, others, out)?;
            Ok(())
        }
        (None, None) => Ok(()),
        (Some(_), _) => Ok(()),
    }
}

/// Lists the products of each variable of the one with each of the other.
fn with_pairs(
    firsts: &[Product],
    others: &[Product],
    out: &mut Vec<Product>,
) -> Result<(), AllocError>
    ensures { OnOk result (WithPairs firsts.now others.now out.old.items out.new.items) }
{
    for at in 0..firsts.len() {
        with_others(firsts[at], others, out)?;
    }
    Ok(())
}

/// The products of variables at which the product may have a coefficient.
fn listed(
    alloc: Global,
    left: &Coefficients,
    right: &Coefficients,
) -> Result<Vec<Product>, AllocError>
    ensures { IfOk result (λ v. Covers left.now right.now v.items) }
{
    let firsts = left.products(alloc)?;
    let others = right.products(alloc)?;
    let mut out = Vec::from_slice(alloc, firsts.as_slice())?;
    out.extend_from_slice(others.as_slice())?;
    with_pairs(firsts.as_slice(), others.as_slice(), &mut out)?;
    Ok(out)
}

/// A part's fault as a node's.
pub fn of_part(fault: PartFault) -> NodeFault
    ensures { OfPart fault result }
{
    match fault {
        PartFault::NoMemory => NodeFault::NoMemory,
        PartFault::Wide => NodeFault::Wide,
    }
}

/// A part's outcome as a node's.
pub fn node_result(outcome: Result<Coefficients, PartFault>) -> Result<Coefficients, NodeFault>
    ensures { Kept outcome result }
{
    match outcome {
        Ok(all) => Ok(all),
        Err(fault) => Err(of_part(fault)),
    }
}

ghost use Rattle.emp_expand.specs.Joins.{TimesGives, DegreesAre};

/// The product, whatever its degree.
pub fn times(
    alloc: Global,
    left: &Coefficients,
    right: &Coefficients,
) -> Result<Coefficients, PartFault>
    ensures { TimesGives left.now right.now result }
{
    let Ok(all) = listed(alloc, left, right) else {
        return Err(PartFault::NoMemory);
    };
    filled(alloc, false, left, right, all.as_slice())
}

/// Whether the degrees of two factors sum to at most 2.
fn degrees_fit(left: &Coefficients, right: &Coefficients) -> bool
    ensures { DegreesAre left.now right.now result }
{
    match left.degree() {
        Degree::Constant => true,
        Degree::Linear => match right.degree() {
            Degree::Constant => true,
            Degree::Linear => true,
            Degree::Quadratic => false,
        },
        Degree::Quadratic => match right.degree() {
            Degree::Constant => true,
            Degree::Linear => false,
            Degree::Quadratic => false,
        },
    }
}

/// The product of two polynomials.
pub fn multiply(
    alloc: Global,
    left: &Coefficients,
    right: &Coefficients,
) -> Result<Coefficients, NodeFault>
    ensures { ProductGives left.now right.now result }
{
    if degrees_fit(left, right) {
        let all = times(alloc, left, right);
        node_result(all)
    } else {
        Err(NodeFault::Degree)
    }
}

/// The quotient by a constant that is not 0.
fn over(alloc: Global, left: &Coefficients, right: &Coefficients) -> Result<Coefficients, PartFault>
    requires { (fractions right.now (None, None)).num ≢ pos 0 }
    ensures { OverGives left.now right.now result }
{
    let Ok(all) = left.products(alloc) else {
        return Err(PartFault::NoMemory);
    };
    filled(alloc, true, left, right, all.as_slice())
}

ghost use Rattle.emp_expand.specs.Joins.{OverGives};

/// The number, where it is not 0.
fn not_zero(value: Frac) -> Option<Frac>
    ensures { MatchOption result (value.num ≡ pos 0) (λ r. (r ≡ value) × (value.num ≢ pos 0)) }
{
    if value.num == 0 { None } else { Some(value) }
}

/// The quotient of two polynomials.
pub fn divide(
    alloc: Global,
    left: &Coefficients,
    right: &Coefficients,
) -> Result<Coefficients, NodeFault>
    ensures { QuotientGives left.now right.now result }
{
    match right.degree() {
        Degree::Constant => match not_zero(right.fraction((None, None))) {
            Some(_) => {
                let all = over(alloc, left, right);
                node_result(all)
            }
            None => Err(NodeFault::DivideByZero),
        },
        Degree::Linear => Err(NodeFault::DivideByVariable),
        Degree::Quadratic => Err(NodeFault::DivideByVariable),
    }
}
