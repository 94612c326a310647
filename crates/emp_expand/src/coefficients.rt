//! Coefficients by the products of variables that they belong to.
ghost use Rattle.std.specs.Prelude.{◌≡◌, ◌≢◌, ◌<◌, Option, Some, None, OnOk, IfOk, MatchOption};
ghost use Rattle.emp_form.specs.Form.{Monomial};
ghost use Rattle.emp_num.specs.Whole.{whole};
ghost use Rattle.emp_expand.specs.Factors.{factor, count, products_of, or_zero, monomial_cmp};
ghost use Rattle.std.specs.List.Sorted.{IsStrictlySortedBy};

use emp_num::frac::Frac;
use std::alloc::{AllocError, Global};
use std::collections::BTreeMap;

/// A product of at most two variables: none, the second alone, or both with the first not after the second.
pub type Product = (Option<u32>, Option<u32>);

/// The degree of a polynomial, by its coefficients.
#[derive(Clone, Copy, Debug, PartialEq, Eq)]
pub enum Degree {
    Constant,
    Linear,
    Quadratic,
}

/// The coefficients of a polynomial that are not 0.
#[derive(Drop)]
pub struct Coefficients {
    terms: BTreeMap<Product, Frac>,
}

/// The number 0.
pub fn zero() -> Frac
    ensures { result ≡ whole 0 }
{
    Frac::reduced(0, 1)
}

impl Coefficients {
    /// No coefficients: the polynomial 0.
    pub fn new(alloc: Global) -> Self
        ensures { (q : Monomial) → factor result q ≡ None }
    {
        Coefficients {
            terms: BTreeMap::new(alloc),
        }
    }

    /// The coefficient of a product, or `None` where there is none.
    pub fn get(&self, at: Product) -> Option<Frac>
        ensures { result ≡ factor self.now at }
    {
        self.terms.get(&at).copied()
    }

    /// The coefficient as a fraction, 0 where there is none.
    pub fn fraction(&self, at: Product) -> Frac
        ensures { result ≡ or_zero (factor self.now at) }
    {
        match self.get(at) {
            Some(value) => value,
            None => zero(),
        }
    }

    /// Writes the coefficient of a product in place of what it had; an error where there is no memory.
    pub fn put(&mut self, at: Product, value: Frac) -> Result<(), AllocError>
        ensures here { OnOk result (factor self.new at ≡ Some value) }
        ensures others { OnOk result ((q : Monomial) → q ≢ at → factor self.new q ≡ factor self.old q) }
    {
        self.terms.insert(at, value)?;
        Ok(())
    }

    /// Takes the coefficient of a product out, where it has one.
    pub fn remove(&mut self, at: Product)
        ensures here { factor self.new at ≡ None }
        ensures others { (q : Monomial) → q ≢ at → factor self.new q ≡ factor self.old q }
    {
        self.terms.remove(&at);
    }

    /// Takes the first coefficient out.
    pub fn pop(&mut self) -> Option<(Product, Frac)>
        ensures was { MatchOption result ((q : Monomial) → factor self.old q ≡ None) (λ p. factor self.old p.0 ≡ Some p.1) }
        ensures gone { MatchOption result ((q : Monomial) → factor self.new q ≡ None) (λ p. factor self.new p.0 ≡ None) }
        ensures others { MatchOption result (Unit {0}) (λ p. (q : Monomial) → q ≢ p.0 → factor self.new q ≡ factor self.old q) }
        ensures fewer { MatchOption result (Unit {0}) (λ p. count self.new < count self.old) }
    {
        match self.terms.pop_first() {
            Some((at, value)) => Some((at, value)),
            None => None,
        }
    }

    /// Writes a coefficient, or that there is none.
    pub fn set(&mut self, at: Product, value: Option<Frac>) -> Result<(), AllocError>
        ensures here { OnOk result (factor self.new at ≡ value) }
        ensures others { OnOk result ((q : Monomial) → q ≢ at → factor self.new q ≡ factor self.old q) }
    {
        match value {
            Some(value) => self.put(at, value)?,
            None => self.remove(at),
        }
        Ok(())
    }

    /// The products that have a coefficient, in rising order.
    pub fn products(&self, alloc: Global) -> Result<Vec<Product>, AllocError>
        ensures all { IfOk result (λ v. v.items ≡ products_of self.now) }
        ensures rising { IfOk result (λ v. IsStrictlySortedBy monomial_cmp v.items) }
    {
        let all = self.keys(alloc)?;
        Ok(all)
    }

    ghost use Rattle.std.specs.BTreeMap.{keys, IsOrdered};

    fn keys(&self, alloc: Global) -> Result<Vec<Product>, AllocError>
        ensures all { IfOk result (λ v. v.items ≡ keys self.now.terms) }
        ensures rising { IsOrdered monomial_cmp self.now.terms }
    {
        self.terms.keys().copied().collect(alloc)
    }

    ghost use Rattle.emp_expand.specs.Degrees.{DegreeIs};

    /// The degree of the polynomial: that of the last product that has a coefficient, `Constant` where none has.
    pub fn degree(&self) -> Degree
        ensures { DegreeIs self.now result }
    {
        match self.terms.last_key_value() {
            Some((at, _)) => degree_of(*at),
            None => Degree::Constant,
        }
    }
}

ghost use Rattle.emp_expand.specs.Degrees.{KeyDegree};

/// The degree of a product of variables.
fn degree_of(at: Product) -> Degree
    ensures { KeyDegree at result }
{
    match at {
        (None, None) => Degree::Constant,
        (None, Some(_)) => Degree::Linear,
        (Some(_), _) => Degree::Quadratic,
    }
}
