//! What numbers have in common, and quotients by it.
ghost use Prim.Native.Nat.{◌∣◌};
ghost use Rattle.std.specs.Prelude.{◌*ℤ◌, MatchOption, IsTrue, ◌≡◌, ◌<◌, ◌^◌, ◌<ℤ◌, pos, int_div, length, slice_index_or, unsigned_abs};
ghost use Rattle.std.specs.Int.{IsGcd};
ghost use Rattle.emp_num.specs.Exact.{IsNarrow};
ghost use Rattle.emp_num.specs.Gcd.{content_from, gcd_of};
ghost use Rattle.emp_line.specs.Sparse.{no_cell, divided, numbers};

use crate::binary::odd_divisor;
use crate::cells::Cell;
use crate::step::SMALL;
use emp_num::exact::common_divisor;

/// The greatest common divisor of two words, by Euclid's steps.
fn even_divisor(a: u64, b: u64) -> u64
    ensures { IsGcd a b result }
{
    let mut x = a;
    let mut y = b;
    while y != 0 {
        let rest = x % y;
        x = y;
        y = rest;
    }
    x
}

/// The greatest common divisor of two words.
#[tactic(auto, using(crate::proofs::Halving::swapping))]
fn word_divisor(a: u64, b: u64) -> u64
    ensures { IsGcd a b result }
{
    if a % 2 == 1 {
        odd_divisor(a, b)
    } else if b % 2 == 1 {
        odd_divisor(b, a)
    } else {
        even_divisor(a, b)
    }
}

const WORDS: u128 = 18446744073709551616;

/// The greatest common divisor of two counts, by words where both are words.
pub fn count_divisor(a: u128, b: u128) -> u128
    ensures { IsGcd a b result }
{
    if a < WORDS && b < WORDS {
        word_divisor(a as u64, b as u64) as u128
    } else {
        common_divisor(a, b)
    }
}

/// The greatest common divisor of two numbers' absolute values.
pub fn common_of(a: i128, b: i128) -> u128
    ensures value { result ≡ gcd_of (unsigned_abs a) (unsigned_abs b) }
    ensures positive { pos 0 <ℤ a → 0 < result }
    ensures narrow { pos 0 <ℤ a → IsNarrow a → result < 2 ^ 126 }
{
    count_divisor(a.unsigned_abs(), b.unsigned_abs())
}

const WORD: i128 = 9223372036854775808;

/// The quotient of a number by a count, rounded towards 0, by words where both are words.
pub fn quotient(number: i128, divisor: u128) -> i128
    requires positive { 0 < divisor }
    requires narrow { divisor < 2 ^ 126 }
    ensures { result ≡ int_div number (pos divisor) }
{
    if divisor < WORD as u128 && -WORD < number && number < WORD {
        ((number as i64) / (divisor as i64)) as i128
    } else {
        number / (divisor as i128)
    }
}

/// A divisor with what makes exact division by it a product of words: the power of two in it, and the inverse of the rest modulo 2^64.
///
/// Nothing rests on the two: each quotient that they give is tested by one product.
#[derive(Clone, Copy)]
pub struct Divider {
    pub divisor: u128,
    pub shift: u32,
    pub inverse: u64,
}

fn low(number: i128) -> i64 {
    ((number.cast_unsigned() & 0xffff_ffff_ffff_ffff) as u64).cast_signed()
}

fn sharper(odd: u64, inverse: u64) -> u64 {
    inverse.wrapping_mul(2u64.wrapping_sub(odd.wrapping_mul(inverse)))
}

/// The divider for a divisor.
pub fn divider_for(divisor: u128) -> Divider
    ensures { result.divisor ≡ divisor }
{
    let word = (divisor & 0xffff_ffff_ffff_ffff) as u64;
    let shift = word.trailing_zeros();
    let odd = word.wrapping_shr(shift);
    let start = odd.wrapping_mul(3) ^ 2;
    let inverse = sharper(odd, sharper(odd, sharper(odd, sharper(odd, start))));
    Divider {
        divisor,
        shift,
        inverse,
    }
}

/// The quotient of a number, if the divider divides it.
fn candidate(divider: Divider, number: i128) -> i64 {
    low(number)
        .wrapping_shr(divider.shift)
        .cast_unsigned()
        .wrapping_mul(divider.inverse)
        .cast_signed()
}

/// The exact quotient of the number at `at`, if it is found at once.
#[tactic(auto, using(crate::proofs::Exactly::fitting))]
fn exact_at(divider: Divider, cells: &[Cell], at: usize) -> Option<i128>
    requires { at < length cells.now }
    ensures { MatchOption result (Unit {0}) (λ q. q *ℤ pos divider.divisor ≡ (slice_index_or cells.now at no_cell).number) }
{
    let quotient = candidate(divider, cells[at].number) as i128;
    if divider.divisor < SMALL as u128 && quotient * (divider.divisor as i128) == cells[at].number {
        Some(quotient)
    } else {
        None
    }
}

/// Whether the divider is seen at once to divide the number at `at`.
fn divides_at(divider: Divider, cells: &[Cell], at: usize) -> bool
    requires { at < length cells.now }
    ensures { IsTrue result → divider.divisor ∣ unsigned_abs (slice_index_or cells.now at no_cell).number }
{
    match exact_at(divider, cells, at) {
        Some(_) => true,
        None => false,
    }
}

/// What a count and the number at `at` have in common. The number goes first: where the count divides it, one division ends the search.
fn common_with(total: u128, row: &[Cell], at: usize) -> u128
    requires { at < length row.now }
    ensures { IsGcd total (unsigned_abs (slice_index_or row.now at no_cell).number) result }
{
    count_divisor(row[at].number.unsigned_abs(), total)
}

/// The same by dividers.
#[tactic(auto, using(crate::proofs::Exactly::common))]
fn common_divider(divider: Divider, row: &[Cell], at: usize) -> Divider
    requires { at < length row.now }
    ensures { IsGcd divider.divisor (unsigned_abs (slice_index_or row.now at no_cell).number) result.divisor }
{
    if divides_at(divider, row, at) {
        divider
    } else {
        divider_for(common_with(divider.divisor, row, at))
    }
}

/// The greatest common divisor of a start and of the numbers of a row; at 1 the rest is not looked at.
#[tactic(auto, using(crate::proofs::Seeds::folding))]
pub fn content_within(start: u128, row: &[Cell]) -> u128
    ensures { result ≡ content_from start (numbers row.now) }
{
    let mut divider = divider_for(start);
    for k in 0..row.len() {
        if divider.divisor == 1 {
            return 1;
        }
        divider = common_divider(divider, row, k);
    }
    divider.divisor
}

/// The quotient of a cell by a count, rounded towards 0.
#[tactic(auto, using(crate::proofs::Exactly::exactly))]
fn quotient_at(cells: &[Cell], at: usize, divider: Divider) -> i128
    requires at { at < length cells.now }
    requires positive { 0 < divider.divisor }
    requires narrow { divider.divisor < 2 ^ 126 }
    ensures { result ≡ int_div (slice_index_or cells.now at no_cell).number (pos divider.divisor) }
{
    match exact_at(divider, cells, at) {
        Some(quotient) => quotient,
        None => cells[at].number / (divider.divisor as i128),
    }
}

/// The cell at a place, divided by a count.
pub fn divided_cell(cells: &[Cell], at: usize, divider: Divider) -> Cell
    requires at { at < length cells.now }
    requires positive { 0 < divider.divisor }
    requires narrow { divider.divisor < 2 ^ 126 }
    ensures { result ≡ divided (pos divider.divisor) (slice_index_or cells.now at no_cell) }
{
    Cell {
        column: cells[at].column,
        number: quotient_at(cells, at, divider),
    }
}
