//! Words of a line as numbers. A number is whole, or a fraction in lowest terms, and has one form.
ghost use Rattle.std.specs.Prelude.{◌≡◌, ◌≤◌, ◌<◌, ◌^◌, ◌+◌, ◌-◌, ◌*◌, [], ◌∷◌, ◌++◌, ℕ, length, take, drop, true, nat_eq, pos, ◌<ℤ◌, MatchOption};
ghost use Rattle.std.specs.Bool.{Decides};
ghost use Rattle.emp_num.specs.Exact.{IsNarrow, IsWide};
ghost use Rattle.emp_numeral.specs.Numeral.{digit, first};
ghost use Rattle.emp_cert_text.specs.Words.{are_digits, value, is_count, is_whole, whole, CountGives, NumberGives, LowestGives, FractionGives, lacks, first_word, after_word};

use emp_num::exact::gcd;
use emp_num::frac::Frac;
use emp_numeral::numeral::{behind, digits_value, head, is_digit};

/// What a word is as a whole number.
#[derive(Clone, Copy, Debug, PartialEq, Eq)]
pub enum Number {
    /// It is none.
    No,
    /// It is one of an absolute value of 2^126 or more.
    Outside,
    Is(i128),
}

/// What a word is as a fraction.
#[derive(Clone, Copy, Debug, PartialEq, Eq)]
pub enum Fraction {
    /// It is none.
    No,
    /// It is one whose numerator or denominator has an absolute value of 2^126 or more.
    Outside,
    Is(Frac),
}

// ---- digits
/// Whether all bytes are digits.
#[tactic(auto, using(crate::proofs::Numbers::digiting))]
fn are_digits(word: &[u8]) -> bool
    ensures { result ≡ are_digits word.now }
{
    for at in 0..word.len() {
        if !is_digit(word[at]) {
            return false;
        }
    }
    true
}

/// Whether the word is digits, with no zero before another digit.
#[tactic(auto, using(crate::proofs::Numbers::counting))]
fn is_count(word: &[u8]) -> bool
    ensures { result ≡ is_count word.now }
{
    are_digits(word) && (word.len() == 1 || (!word.is_empty() && word[0] > 48))
}

/// The count that a word writes.
#[tactic(auto, using(crate::proofs::Numbers::counting))]
fn count_in(word: &[u8]) -> Number
    ensures { CountGives word.now result }
{
    if !is_count(word) {
        return Number::No;
    }
    match digits_value(0, word) {
        None => Number::Outside,
        Some(value) => Number::Is(value as i128),
    }
}

/// The number below 0 that a `-` and digits write.
#[tactic(auto, using(crate::proofs::Numbers::signing))]
fn below_in(digits: &[u8]) -> Number
    ensures { NumberGives (45 ∷ digits.now) result }
{
    match count_in(digits) {
        Number::No => Number::No,
        Number::Outside => Number::Outside,
        Number::Is(0) => Number::No,
        Number::Is(size) => Number::Is(-size),
    }
}

/// What stands before a place.
pub fn up_to(text: &[u8], at: usize) -> &[u8]
    requires { at ≤ length text.now }
    ensures { result.now ≡ take at text.now }
{
    &text[..at]
}

/// What stands from a place on.
pub fn from(text: &[u8], at: usize) -> &[u8]
    requires { at ≤ length text.now }
    ensures { result.now ≡ drop at text.now }
{
    &text[at..]
}

/// The whole number that a word writes, with a `-` before it where it is below 0.
#[tactic(auto, using(crate::proofs::Numbers::signing))]
pub fn whole_in(word: &[u8]) -> Number
    ensures { NumberGives word.now result }
{
    if head(word) == b'-' {
        below_in(behind(word))
    } else {
        count_in(word)
    }
}

/// Where a byte stands first, and the word's length where it does not.
#[tactic(auto, using(crate::proofs::Numbers::placing))]
pub fn place_of(word: &[u8], byte: u8) -> usize
    ensures within { result ≤ length word.now }
    ensures before { lacks byte (take result word.now) ≡ true }
    ensures at { result < length word.now → word.now ≡ take result word.now ++ (byte ∷ drop (result + 1) word.now) }
{
    for at in 0..word.len() {
        if word[at] == byte {
            return at;
        }
    }
    word.len()
}

/// The quotient of two numbers, where it is in lowest terms already.
#[tactic(auto, using(crate::proofs::Numbers::lowering))]
fn lowest(num: i128, den: i128) -> Fraction
    requires narrow_num { IsNarrow num }
    requires narrow_den { IsNarrow den }
    requires positive { pos 0 <ℤ den }
    ensures { LowestGives num den result }
{
    if gcd(num, den) != 1 {
        return Fraction::No;
    }
    Fraction::Is(Frac { num, den })
}

/// The quotient of a number that is too wide.
#[tactic(auto, using(crate::proofs::Numbers::dividing))]
fn over_wide(num: &[u8], den: &[u8]) -> Fraction
    requires before { lacks 47 num.now ≡ true }
    requires whole { is_whole num.now ≡ true }
    requires wide { IsWide (whole num.now) }
    ensures { FractionGives (num.now ++ 47 ∷ den.now) result }
{
    match count_in(den) {
        Number::No => Fraction::No,
        Number::Outside => Fraction::Outside,
        Number::Is(bottom) => {
            if bottom < 2 {
                Fraction::No
            } else {
                Fraction::Outside
            }
        }
    }
}

/// The quotient of a number that is not.
#[tactic(auto, using(crate::proofs::Numbers::dividing))]
fn over_narrow(num: &[u8], top: i128, den: &[u8]) -> Fraction
    requires before { lacks 47 num.now ≡ true }
    requires whole { is_whole num.now ≡ true }
    requires is { top ≡ whole num.now }
    requires narrow { IsNarrow top }
    ensures { FractionGives (num.now ++ 47 ∷ den.now) result }
{
    match count_in(den) {
        Number::No => Fraction::No,
        Number::Outside => Fraction::Outside,
        Number::Is(bottom) => {
            if bottom < 2 {
                Fraction::No
            } else {
                lowest(top, bottom)
            }
        }
    }
}

/// The quotient of what stands before a slash and what stands behind it.
#[tactic(auto, using(crate::proofs::Numbers::dividing))]
fn quotient_in(num: &[u8], den: &[u8]) -> Fraction
    requires before { lacks 47 num.now ≡ true }
    ensures { FractionGives (num.now ++ 47 ∷ den.now) result }
{
    match whole_in(num) {
        Number::No => Fraction::No,
        Number::Outside => over_wide(num, den),
        Number::Is(top) => over_narrow(num, top, den),
    }
}

/// A whole number as a fraction.
#[tactic(auto, using(crate::proofs::Numbers::dividing))]
fn whole_fraction(word: &[u8]) -> Fraction
    requires { lacks 47 word.now ≡ true }
    ensures { FractionGives word.now result }
{
    match whole_in(word) {
        Number::No => Fraction::No,
        Number::Outside => Fraction::Outside,
        Number::Is(num) => Fraction::Is(Frac { num, den: 1 }),
    }
}

/// The fraction that a word writes.
#[tactic(auto, using(crate::proofs::Numbers::dividing))]
pub fn fraction_in(word: &[u8]) -> Fraction
    ensures { FractionGives word.now result }
{
    let slash = place_of(word, b'/');
    if slash < word.len() {
        quotient_in(up_to(word, slash), from(word, slash + 1))
    } else {
        whole_fraction(word)
    }
}

// ---- order
/// Whether a count is below another, both as digits.
#[tactic(auto, using(crate::proofs::Numbers::ordering))]
fn is_less(a: &[u8], b: &[u8]) -> bool
    ensures { is_count a.now ≡ true → is_count b.now ≡ true → Decides result (value a.now < value b.now) }
{
    if a.len() < b.len() {
        return true;
    }
    if a.len() > b.len() {
        return false;
    }
    for at in 0..a.len() {
        if a[at] < b[at] {
            return true;
        }
        if a[at] > b[at] {
            return false;
        }
    }
    false
}

/// Whether a whole number is below another, both as words.
#[tactic(auto, using(crate::proofs::Numbers::ordering))]
pub fn is_below(a: &[u8], b: &[u8]) -> bool
    ensures { is_whole a.now ≡ true → is_whole b.now ≡ true → Decides result (whole a.now <ℤ whole b.now) }
{
    if head(a) == b'-' {
        if head(b) == b'-' {
            return is_less(behind(b), behind(a));
        }
        return true;
    }
    if head(b) == b'-' {
        return false;
    }
    is_less(a, b)
}

// ---- words of a line
/// How long the word is that a text begins with.
#[tactic(auto, using(crate::proofs::Numbers::cutting))]
fn word_len(text: &[u8]) -> usize
    ensures within { result ≤ length text.now }
    ensures word { take result text.now ≡ first_word text.now }
    ensures rest { drop result text.now ≡ after_word text.now }
{
    for at in 0..text.len() {
        if text[at] <= 32 {
            return at;
        }
    }
    text.len()
}

/// The word after a space.
pub fn next_word(text: &[u8]) -> &[u8]
    ensures { result.now ≡ first_word (drop 1 text.now) }
{
    let text = behind(text);
    up_to(text, word_len(text))
}

/// What follows the word after a space.
pub fn rest_after(text: &[u8]) -> &[u8]
    ensures { result.now ≡ after_word (drop 1 text.now) }
{
    let text = behind(text);
    from(text, word_len(text))
}

/// Whether the text begins with a space.
pub fn has_space(text: &[u8]) -> bool
    ensures { result ≡ nat_eq (first text.now) 32 }
{
    head(text) == b' '
}

/// Whether the text is the end of a line.
pub fn is_end(text: &[u8]) -> bool
    ensures { Decides result (text.now ≡ 10 ∷ []) }
{
    text == b"\n".as_slice()
}
