//! Numerals read exactly.
ghost use Rattle.std.specs.Prelude.{◌≡◌, ℕ, ◌+◌, ◌-◌, ◌*◌, ◌^◌, ◌<◌, ◌≤◌, pos, neg_ℤ, ◌-ℤ◌, length, take, drop, MatchOption};
ghost use Rattle.emp_numeral.specs.Numeral.{digit, digits_of, after_digits, value_from, trimmed, first, fraction_digits, after_fraction, is_sign, is_mark, unsigned, exponent_digits, exponent_negative, only_digits, exponent_form, numeral_form, mantissa, scale, signed, DecimalGives, NumeralGives};
ghost use Rattle.emp_num.specs.FracSpec.{IsQuotient};

use emp_num::exact::LIMIT;
use emp_num::frac::Frac;

/// Why a text gives no number.
#[derive(Clone, Copy, Debug, PartialEq, Eq)]
pub enum NumeralFault {
    /// The text is no numeral: `numeral_form` of `specs/Numeral.antt` is false for it.
    Form,
    /// The digits, or the upper or lower number that they and the exponent write, have absolute value 2^126 or more.
    Wide,
}

// ---- numbers
fn with_digit(n: u128, b: u8) -> Option<u128>
    ensures { MatchOption result (2 ^ 126 ≤ n * 10 + (b - 48)) (λ v. (v ≡ n * 10 + (b - 48)) × (v < 2 ^ 126)) }
{
    let tens = n.checked_mul(10)?;
    let v = tens.checked_add(u128::from(b.saturating_sub(48)))?;
    if v < LIMIT.unsigned_abs() {
        Some(v)
    } else {
        None
    }
}

/// The number that digits write behind those of a number, and none where it is 2^126 or more.
#[tactic(auto, using(crate::proofs::Numerals::valuing))]
pub fn digits_value(start: u128, digits: &[u8]) -> Option<u128>
    requires { start < 2 ^ 126 }
    ensures { MatchOption result (2 ^ 126 ≤ value_from start digits.now) (λ v. (v ≡ value_from start digits.now) × (v < 2 ^ 126)) }
{
    let mut n = start;
    for i in 0..digits.len() {
        n = with_digit(n, digits[i])?;
    }
    Some(n)
}

/// A number times a power of ten.
#[tactic(auto, using(crate::proofs::Numerals::scaling))]
fn scaled(m: u128, n: u128) -> Option<u128>
    requires above { 0 < m }
    requires below { m < 2 ^ 126 }
    ensures { MatchOption result (2 ^ 126 ≤ m * 10 ^ n) (λ v. (v ≡ m * 10 ^ n) × (v < 2 ^ 126)) }
{
    let mut v = m;
    let mut left = n;
    while left > 0 {
        v = with_digit(v, 48)?;
        left -= 1;
    }
    Some(v)
}

fn whole(n: u128) -> i128
    requires { n < 2 ^ 126 }
    ensures { result ≡ pos n }
{
    n as i128
}

#[tactic(auto, using(emp_num::proofs::Gcds::reads))]
fn quotient(top: u128, bottom: u128) -> Frac
    requires top { top < 2 ^ 126 }
    requires bottom { bottom < 2 ^ 126 }
    requires positive { 0 < bottom }
    ensures { IsQuotient result (pos top) (pos bottom) }
{
    Frac::reduced(whole(top), whole(bottom))
}

#[tactic(auto, using(crate::proofs::Numerals::powers))]
fn over_power(m: u128, n: u128) -> Option<Frac>
    requires { m < 2 ^ 126 }
    ensures { MatchOption result (2 ^ 126 ≤ 10 ^ n) (λ r. IsQuotient r (pos m) (pos (10 ^ n)) × (10 ^ n < 2 ^ 126)) }
{
    let bottom = scaled(1, n)?;
    Some(quotient(m, bottom))
}

#[tactic(auto, using(crate::proofs::Numerals::powers))]
fn times_power(m: u128, n: u128) -> Option<Frac>
    requires above { 0 < m }
    requires below { m < 2 ^ 126 }
    ensures { MatchOption result (2 ^ 126 ≤ m * 10 ^ n) (λ r. IsQuotient r (pos (m * 10 ^ n)) (pos 1) × (m * 10 ^ n < 2 ^ 126)) }
{
    let top = scaled(m, n)?;
    Some(quotient(top, 1))
}

// ---- parts of a text
/// Whether the byte is a digit.
pub fn is_digit(b: u8) -> bool
    ensures { result ≡ digit b }
{
    47 < b && b < 58
}

/// How many digits a text begins with.
#[tactic(auto, using(crate::proofs::Digits::counting))]
fn digits_len(text: &[u8]) -> usize
    ensures within { result ≤ length text.now }
    ensures digits { take result text.now ≡ digits_of text.now }
    ensures rest { drop result text.now ≡ after_digits text.now }
{
    for i in 0..text.len() {
        if !is_digit(text[i]) {
            return i;
        }
    }
    text.len()
}

/// How many digits are left without the zeros at the end.
#[tactic(auto, using(crate::proofs::Digits::trimming))]
fn trimmed_len(digits: &[u8]) -> usize
    ensures within { result ≤ length digits.now }
    ensures kept { take result digits.now ≡ trimmed digits.now }
{
    let mut n = digits.len();
    while n > 0 {
        if digits[n - 1] != 48 {
            return n;
        }
        n -= 1;
    }
    0
}

/// The first byte, and 0 where there is none.
pub fn head(text: &[u8]) -> u8
    ensures { result ≡ first text.now }
{
    if text.is_empty() { 0 } else { text[0] }
}

/// What follows the first byte.
pub fn behind(text: &[u8]) -> &[u8]
    ensures { result.now ≡ drop 1 text.now }
{
    if text.is_empty() { text } else { &text[1..] }
}

fn digits_at(text: &[u8]) -> &[u8]
    ensures { result.now ≡ digits_of text.now }
{
    &text[..digits_len(text)]
}

fn behind_digits(text: &[u8]) -> &[u8]
    ensures { result.now ≡ after_digits text.now }
{
    &text[digits_len(text)..]
}

fn without_last_zeros(digits: &[u8]) -> &[u8]
    ensures { result.now ≡ trimmed digits.now }
{
    &digits[..trimmed_len(digits)]
}

fn fraction_at(rest: &[u8]) -> &[u8]
    ensures { result.now ≡ fraction_digits rest.now }
{
    if head(rest) == 46 {
        digits_at(behind(rest))
    } else {
        &rest[..0]
    }
}

fn behind_fraction(rest: &[u8]) -> &[u8]
    ensures { result.now ≡ after_fraction rest.now }
{
    if head(rest) == 46 {
        behind_digits(behind(rest))
    } else {
        rest
    }
}

fn behind_sign(text: &[u8]) -> &[u8]
    ensures { result.now ≡ unsigned text.now }
{
    let sign = head(text);
    if sign == 43 || sign == 45 {
        behind(text)
    } else {
        text
    }
}

fn exponent_at(tail: &[u8]) -> &[u8]
    ensures { result.now ≡ exponent_digits tail.now }
{
    behind_sign(behind(tail))
}

fn is_negative(tail: &[u8]) -> bool
    ensures { result ≡ exponent_negative tail.now }
{
    head(behind(tail)) == 45
}

fn has_mark(tail: &[u8]) -> bool
    ensures { result ≡ is_mark (first tail.now) }
{
    let mark = head(tail);
    mark == 101 || mark == 69
}

fn has_only_digits(text: &[u8]) -> bool
    ensures { result ≡ only_digits text.now }
{
    !text.is_empty() && behind_digits(text).is_empty()
}

fn is_exponent(tail: &[u8]) -> bool
    ensures { result ≡ exponent_form tail.now }
{
    tail.is_empty() || (has_mark(tail) && has_only_digits(exponent_at(tail)))
}

fn is_numeral(text: &[u8]) -> bool
    ensures { result ≡ numeral_form text.now }
{
    let rest = behind_digits(text);
    let is_bare = digits_at(text).is_empty() && fraction_at(rest).is_empty();
    !is_bare && is_exponent(behind_fraction(rest))
}

// ---- values
#[tactic(auto, using(crate::proofs::Shifts::shifting))]
fn shifted_down(m: u128, n: u128) -> Result<Frac, NumeralFault>
    requires above { 0 < m }
    requires below { m < 2 ^ 126 }
    ensures { DecimalGives m (neg_ℤ (pos n)) result }
{
    match over_power(m, n) {
        Some(r) => Ok(r),
        None => Err(NumeralFault::Wide),
    }
}

#[tactic(auto, using(crate::proofs::Shifts::shifting))]
fn shifted_up(m: u128, n: u128) -> Result<Frac, NumeralFault>
    requires above { 0 < m }
    requires below { m < 2 ^ 126 }
    ensures { DecimalGives m (pos n) result }
{
    match times_power(m, n) {
        Some(r) => Ok(r),
        None => Err(NumeralFault::Wide),
    }
}

/// A number above 0 by its exponent and its count of places.
#[tactic(auto, using(crate::proofs::Shifts::directing))]
fn shifted(m: u128, negative: bool, size: u128, places: usize) -> Result<Frac, NumeralFault>
    requires above { 0 < m }
    requires below { m < 2 ^ 126 }
    requires size { size < 2 ^ 126 }
    ensures { DecimalGives m (signed negative size -ℤ pos places) result }
{
    let places = places as u128;
    if negative {
        return shifted_down(m, size + places);
    }
    if size < places {
        return shifted_down(m, places - size);
    }
    shifted_up(m, size - places)
}

#[tactic(auto, using(crate::proofs::Numerals::joining))]
fn joined(whole: &[u8], fraction: &[u8]) -> Option<u128>
    ensures { MatchOption result (2 ^ 126 ≤ value_from (value_from 0 whole.now) fraction.now) (λ v. (v ≡ value_from (value_from 0 whole.now) fraction.now) × (v < 2 ^ 126)) }
{
    let n = digits_value(0, whole)?;
    digits_value(n, fraction)
}

#[tactic(auto, using(crate::proofs::Shifts::deciding))]
fn value_of_parts(
    whole: &[u8],
    fraction: &[u8],
    negative: bool,
    exponent: &[u8],
) -> Result<Frac, NumeralFault>
    ensures { DecimalGives (mantissa whole.now fraction.now) (scale fraction.now negative (value_from 0 exponent.now)) result }
{
    let kept = without_last_zeros(fraction);
    let Some(m) = joined(whole, kept) else {
        return Err(NumeralFault::Wide);
    };
    if m == 0 {
        return Ok(quotient(0, 1));
    }
    let Some(size) = digits_value(0, exponent) else {
        return Err(NumeralFault::Wide);
    };
    shifted(m, negative, size, kept.len())
}

/// The fraction that a numeral writes: digits with at most one point, and an exponent or none. It has no sign.
///
/// `Form` exactly where the text is no numeral. `Wide` exactly where a number that its value is formed of, before it is reduced, has
/// absolute value 2^126 or more; a numeral of value 0 is never `Wide`. `NumeralGives` of `specs/Numeral.antt` says both.
#[tactic(auto, using(crate::proofs::Shifts::reading))]
pub fn read_numeral(text: &[u8]) -> Result<Frac, NumeralFault>
    ensures { NumeralGives text.now result }
{
    if !is_numeral(text) {
        return Err(NumeralFault::Form);
    }
    let rest = behind_digits(text);
    let tail = behind_fraction(rest);
    value_of_parts(
        digits_at(text),
        fraction_at(rest),
        is_negative(tail),
        exponent_at(tail),
    )
}
