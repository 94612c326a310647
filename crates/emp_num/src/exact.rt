//! Numbers that are formed, and tested at once.
ghost use Rattle.std.specs.Prelude.{◌≡◌, ◌≤◌, ◌<ℤ◌, ◌+ℤ◌, ◌-ℤ◌, ◌*ℤ◌, MatchResult, unsigned_abs, pos};
ghost use Prim.Native.Nat.{◌∣◌};
ghost use Rattle.std.specs.Int.{IsGcd};
ghost use Rattle.emp_num.specs.Exact.{IsNarrow, IsWide};

/// A formed number has absolute value 2^126 or more. `IsWide` of `specs/Exact.antt` says so of a number.
#[derive(Clone, Copy, Debug, PartialEq, Eq)]
pub struct Wide;

/// 2^126, the absolute value from which on numbers are wide.
pub const LIMIT: i128 = 85070591730234615865843651857942052864;

/// The number itself, or `Wide` exactly where its absolute value is 2^126 or more.
pub fn narrow(z: i128) -> Result<i128, Wide>
    ensures { MatchResult result (λ p. (p ≡ z) × IsNarrow z) (λ _. IsWide z) }
{
    if -LIMIT < z && z < LIMIT {
        Ok(z)
    } else {
        Err(Wide)
    }
}

/// The product of any two numbers, or `Wide` exactly where its absolute value is 2^126 or more.
pub fn product(a: i128, b: i128) -> Result<i128, Wide>
    ensures { MatchResult result (λ p. (p ≡ a *ℤ b) × IsNarrow (a *ℤ b)) (λ _. IsWide (a *ℤ b)) }
{
    match a.checked_mul(b) {
        Some(p) => narrow(p),
        None => Err(Wide),
    }
}

/// The sum of any two numbers, or `Wide` exactly where its absolute value is 2^126 or more.
pub fn sum(a: i128, b: i128) -> Result<i128, Wide>
    ensures { MatchResult result (λ p. (p ≡ a +ℤ b) × IsNarrow (a +ℤ b)) (λ _. IsWide (a +ℤ b)) }
{
    match a.checked_add(b) {
        Some(p) => narrow(p),
        None => Err(Wide),
    }
}

/// The first number less the second, or `Wide` exactly where the absolute value of that is 2^126 or more.
pub fn difference(a: i128, b: i128) -> Result<i128, Wide>
    ensures { MatchResult result (λ p. (p ≡ a -ℤ b) × IsNarrow (a -ℤ b)) (λ _. IsWide (a -ℤ b)) }
{
    match a.checked_sub(b) {
        Some(p) => narrow(p),
        None => Err(Wide),
    }
}

/// The greatest common divisor of two counts, which is 0 where both are 0.
pub fn common_divisor(a: u128, b: u128) -> u128
    ensures { IsGcd a b result }
{
    let mut x = a;
    let mut y = b;
    while y != 0 {
        let rest = x % y;
        x = y;
        y = rest;
    }
    x
}

/// The greatest common divisor of two narrow numbers, signs aside. It is never below 0, and 0 only where both numbers are.
pub fn gcd(a: i128, b: i128) -> i128
    requires narrow_a { IsNarrow a }
    requires narrow_b { IsNarrow b }
    ensures nonnegative { result ≡ pos (unsigned_abs result) }
    ensures narrow { IsNarrow result }
    ensures positive { pos 0 <ℤ b → pos 0 <ℤ result }
    ensures divisor { IsGcd (unsigned_abs a) (unsigned_abs b) (unsigned_abs result) }
{
    common_divisor(a.unsigned_abs(), b.unsigned_abs()) as i128
}

/// The quotient of a number by a divisor of it that is above 0. The caller shows that it divides.
pub fn exact_quotient(a: i128, divisor: i128) -> i128
    requires positive { pos 0 <ℤ divisor }
    requires divides { unsigned_abs divisor ∣ unsigned_abs a }
    ensures value { result *ℤ divisor ≡ a }
    ensures bound { unsigned_abs result ≤ unsigned_abs a }
{
    a / divisor
}
