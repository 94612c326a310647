//! Fractions in lowest terms.
ghost use Rattle.std.specs.Prelude.{◌≡◌, ◌<ℤ◌, pos, neg_ℤ};
ghost use Rattle.emp_num.specs.Exact.{IsNarrow, IsWide, IsCoprime};

use crate::exact::{Wide, difference, exact_quotient, gcd, narrow, product, sum};

/// A fraction of two numbers below 2^126 in absolute value, in lowest terms. So each number that it can be is one value alone.
#[derive(Clone, Copy, Debug, PartialEq, Eq)]
pub struct Frac {
    /// The upper number, with the sign.
    pub num: i128,
    /// The lower number, above 0.
    pub den: i128,
    pub ghost positive: { pos 0 <ℤ den },
    pub ghost num_narrow: { IsNarrow num },
    pub ghost den_narrow: { IsNarrow den },
    pub ghost lowest: { IsCoprime num den },
}

/// Why there is no quotient.
#[derive(Clone, Copy, Debug, PartialEq, Eq)]
pub enum DivFault {
    /// The divisor is 0.
    Zero,
    /// The divisor is not 0, and a number that the quotient is formed of has absolute value 2^126 or more.
    Wide,
}

impl Frac {
    ghost use Rattle.std.specs.Prelude.{◌+ℤ◌, ◌-ℤ◌, ◌*ℤ◌, MatchResult};
    ghost use Rattle.emp_num.specs.FracSpec.{IsQuotient, NewGives, DivGives, AddsNarrow, AddsWide, SubtractsNarrow, SubtractsWide, MultipliesNarrow, MultipliesWide};

    /// The upper number, with the sign.
    pub fn num(&self) -> i128
        ensures { result ≡ self.now.num }
    {
        self.num
    }

    /// The lower number, above 0.
    pub fn den(&self) -> i128
        ensures { result ≡ self.now.den }
    {
        self.den
    }

    /// The fraction of two narrow numbers of which the lower is above 0, in lowest terms. The caller shows both.
    pub fn reduced(num: i128, den: i128) -> Frac
        requires narrow_num { IsNarrow num }
        requires narrow_den { IsNarrow den }
        requires positive { pos 0 <ℤ den }
        ensures { IsQuotient result num den }
    {
        let divisor = gcd(num, den);
        Frac {
            num: exact_quotient(num, divisor),
            den: exact_quotient(den, divisor),
        }
    }

    /// The fraction of any two numbers, in lowest terms.
    ///
    /// `Zero` exactly where `den` is 0. `Wide` exactly where it is not and one of the two numbers, before they are reduced, has
    /// absolute value 2^126 or more.
    pub fn new(num: i128, den: i128) -> Result<Frac, DivFault>
        ensures { NewGives num den result }
    {
        if den == 0 {
            return Err(DivFault::Zero);
        }
        let Ok(num) = narrow(num) else {
            return Err(DivFault::Wide);
        };
        let Ok(den) = narrow(den) else {
            return Err(DivFault::Wide);
        };
        if den < 0 {
            Ok(Frac::reduced(-num, -den))
        } else {
            Ok(Frac::reduced(num, den))
        }
    }

    /// The sum: a.num b.den and b.num a.den are formed, then the sum of these, then a.den b.den, and the quotient is reduced.
    ///
    /// `Wide` exactly where one of these four numbers has absolute value 2^126 or more.
    #[tactic(auto, using(crate::proofs::Gcds::reads))]
    pub fn add(a: Frac, b: Frac) -> Result<Frac, Wide>
        ensures { MatchResult result (λ r. AddsNarrow a b × IsQuotient r (a.num *ℤ b.den +ℤ b.num *ℤ a.den) (a.den *ℤ b.den)) (λ _. AddsWide a b) }
    {
        let left = product(a.num, b.den)?;
        let right = product(b.num, a.den)?;
        let top = sum(left, right)?;
        let bottom = product(a.den, b.den)?;
        Ok(Frac::reduced(top, bottom))
    }

    /// The difference a less b, formed as the sum is, with a difference for the third number.
    ///
    /// `Wide` exactly where one of the four numbers has absolute value 2^126 or more.
    #[tactic(auto, using(crate::proofs::Gcds::reads))]
    pub fn sub(a: Frac, b: Frac) -> Result<Frac, Wide>
        ensures { MatchResult result (λ r. SubtractsNarrow a b × IsQuotient r (a.num *ℤ b.den -ℤ b.num *ℤ a.den) (a.den *ℤ b.den)) (λ _. SubtractsWide a b) }
    {
        let left = product(a.num, b.den)?;
        let right = product(b.num, a.den)?;
        let top = difference(left, right)?;
        let shared = product(a.den, b.den)?;
        Ok(Frac::reduced(top, shared))
    }

    /// The product: a.num b.num and a.den b.den are formed, and the quotient is reduced.
    ///
    /// `Wide` exactly where one of these two numbers has absolute value 2^126 or more.
    #[tactic(auto, using(crate::proofs::Gcds::reads))]
    pub fn mul(a: Frac, b: Frac) -> Result<Frac, Wide>
        ensures { MatchResult result (λ r. MultipliesNarrow a b × IsQuotient r (a.num *ℤ b.num) (a.den *ℤ b.den)) (λ _. MultipliesWide a b) }
    {
        let num = product(a.num, b.num)?;
        let den = product(a.den, b.den)?;
        Ok(Frac::reduced(num, den))
    }

    /// The quotient a over b: a.num b.den and a.den b.num are formed, and the quotient is reduced.
    ///
    /// `Zero` exactly where b is 0. `Wide` exactly where b is not 0 and one of the two numbers has absolute value 2^126 or more.
    #[tactic(auto, using(crate::proofs::Signs::dividing))]
    pub fn div(a: Frac, b: Frac) -> Result<Frac, DivFault>
        ensures { DivGives a b result }
    {
        if b.num == 0 {
            return Err(DivFault::Zero);
        }
        let Ok(top) = product(a.num, b.den) else {
            return Err(DivFault::Wide);
        };
        let Ok(bottom) = product(a.den, b.num) else {
            return Err(DivFault::Wide);
        };
        Frac::new(top, bottom)
    }

    /// The opposite. There is no error.
    #[tactic(auto, using(crate::proofs::Signs::negating))]
    pub fn neg(a: Frac) -> Frac
        ensures num { result.num ≡ neg_ℤ a.num }
        ensures den { result.den ≡ a.den }
    {
        Frac {
            num: negated_num(a),
            den: a.den,
        }
    }
}

fn negated_num(a: Frac) -> i128
    ensures { result ≡ neg_ℤ a.num }
{
    -a.num
}
