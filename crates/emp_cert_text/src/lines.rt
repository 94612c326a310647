//! Lines of certificates, each read for itself.
ghost use Rattle.std.specs.Prelude.{◌≡◌, ◌≢◌, ◌++◌, ◌∷◌, ◌+◌, ◌≤◌, ◌<◌, [], ℕ, Bool, List, length, map, codes, pos, ◌<ℤ◌, ◌≤ℤ◌, true, IfOk, IfErr, OnOk, MatchOption};
ghost use Rattle.std.specs.Bool.{Decides};
ghost use Rattle.std.specs.List.{All};
ghost use Rattle.emp_algebra.specs.Vector.{cell};
ghost use Rattle.emp_num.specs.Exact.{IsNarrow};
ghost use Rattle.emp_rows.specs.Points.{IsNumber};
ghost use Rattle.emp_cert.specs.Certs.{Counts, NodeFits};
ghost use Rattle.emp_cert_text.specs.Text.{sparse, node_text, point_text, ray_text, pair_text, sizes_text};
ghost use Rattle.emp_cert_text.specs.Words.{whole};
ghost use Rattle.emp_cert_text.specs.Lines.{IsWhole, IsAbove, IsLast, last_of, FactorAt, TakesFactor, LineFails, NumbersGive, FractionsGive, FactorsGive, PushesWhole, PushesFraction, SizesRight, SizesFit, PairRight, PairFits, PointRight, PointFits, RayRight, RayFits, NodeRight, NodeLineFits};

use crate::words::{
    Fraction, Number, fraction_in, from, has_space, is_below, is_end, next_word, place_of,
    rest_after, up_to, whole_in,
};
use emp_cert::tree::Node;
use emp_list::seq::Seq;
use emp_num::frac::Frac;
use std::alloc::{AllocError, Global};

/// Why a line is not taken.
#[derive(Clone, Copy, Debug, PartialEq, Eq)]
pub enum LineFault {
    /// The line has the right words, counts and order, and a number is outside its range.
    Range,
    /// Any other fault.
    Syntax,
    NoMemory,
}

impl From<AllocError> for LineFault {
    ghost use Rattle.std.specs.Prelude.{◌≡◌};
    ghost use Rattle.emp_cert_text.specs.declared.lines.LineFault.TheVariants.{NoMemory as no_memory};

    ghost from_gives = { λ _ e. e ≡ no_memory };

    fn from(_refused: AllocError) -> LineFault {
        LineFault::NoMemory
    }
}

/// The counts of a certificate.
#[derive(Clone, Copy, Debug, PartialEq, Eq)]
pub struct Sizes {
    pub base: u32,
    pub quantities: u32,
    pub pairs: u32,
    pub ghost few: { Counts base quantities pairs },
}

/// What follows a word that the line begins with.
fn rest_of<'a>(text: &'a [u8], word: &[u8]) -> Option<&'a [u8]>
    ensures { MatchOption result ((t : List ℕ) → text.now ≡ word.now ++ t → ⊥) (λ r. text.now ≡ word.now ++ r.now) }
{
    text.strip_prefix(word)
}

// ---- words
/// Puts the number that a word writes behind the others, or 0 where it is outside its range; tells which.
#[tactic(auto, using(crate::proofs::Spaced::pushing))]
fn push_whole(out: &mut Seq<i128>, word: &[u8]) -> Result<bool, LineFault>
    ensures { PushesWhole word.now out.old out.new result }
{
    match whole_in(word) {
        Number::No => Err(LineFault::Syntax),
        Number::Outside => {
            out.push(0)?;
            Ok(true)
        }
        Number::Is(value) => {
            out.push(value)?;
            Ok(false)
        }
    }
}

/// Puts the fraction that a word writes behind the others, or 0 where it is outside its range; tells which.
#[tactic(auto, using(crate::proofs::Spaced::pushing))]
fn push_fraction(out: &mut Seq<Frac>, word: &[u8]) -> Result<bool, LineFault>
    ensures { PushesFraction word.now out.old out.new result }
{
    match fraction_in(word) {
        Fraction::No => Err(LineFault::Syntax),
        Fraction::Outside => {
            out.push(Frac::reduced(0, 1))?;
            Ok(true)
        }
        Fraction::Is(value) => {
            out.push(value)?;
            Ok(false)
        }
    }
}

/// So many whole numbers, each after a space, up to the line's end.
fn numbers_in(alloc: Global, text: &[u8], count: u32) -> Result<Seq<i128>, LineFault>
    ensures { NumbersGive text.now count result }
{
    let mut out = Seq::new(alloc);
    let mut rest = text;
    let mut outside = false;
    for _done in 0..count {
        if !has_space(rest) {
            return Err(LineFault::Syntax);
        }
        match push_whole(&mut out, next_word(rest)) {
            Ok(wide) => outside |= wide,
            Err(fault) => return Err(fault),
        }
        rest = rest_after(rest);
    }
    if !is_end(rest) {
        return Err(LineFault::Syntax);
    }
    if outside {
        return Err(LineFault::Range);
    }
    Ok(out)
}

/// So many fractions, each after a space, up to the line's end.
fn fractions_in(alloc: Global, text: &[u8], count: u32) -> Result<Seq<Frac>, LineFault>
    ensures { FractionsGive text.now count result }
{
    let mut out = Seq::new(alloc);
    let mut rest = text;
    let mut outside = false;
    for _done in 0..count {
        if !has_space(rest) {
            return Err(LineFault::Syntax);
        }
        match push_fraction(&mut out, next_word(rest)) {
            Ok(wide) => outside |= wide,
            Err(fault) => return Err(fault),
        }
        rest = rest_after(rest);
    }
    if !is_end(rest) {
        return Err(LineFault::Syntax);
    }
    if outside {
        return Err(LineFault::Range);
    }
    Ok(out)
}

// ---- factors that are not 0
/// Puts zeros behind the others until there are so many.
#[tactic(auto, using(crate::proofs::Factors::padding))]
fn pad(out: &mut Seq<i128>, size: usize) -> Result<(), AllocError>
    requires { length out.old ≤ size }
    ensures sparse { OnOk result (sparse 1 out.new ≡ sparse 1 out.old) }
    ensures count { OnOk result (length out.new ≡ size) }
    ensures narrow { All IsNarrow out.old → All IsNarrow out.new }
{
    while out.len() < size {
        out.push(0)?;
    }
    Ok(())
}

/// Whether a word is a whole number.
#[tactic(auto, using(crate::proofs::Factors::parting))]
fn is_number(word: &[u8]) -> bool
    ensures { Decides result (IsWhole word.now) }
{
    match whole_in(word) {
        Number::No => false,
        _ => true,
    }
}

/// Whether a word is a whole number that is not 0.
#[tactic(auto, using(crate::proofs::Factors::parting))]
fn is_other_than_zero(word: &[u8]) -> bool
    ensures { Decides result (IsWhole word.now × (whole word.now ≢ pos 0)) }
{
    match whole_in(word) {
        Number::No => false,
        Number::Is(0) => false,
        _ => true,
    }
}

/// Whether a number is above the word before, where there is one.
#[tactic(auto, using(crate::proofs::Factors::parting))]
fn is_after(before: &[u8], place: &[u8]) -> bool
    requires before { IsLast before.now }
    requires place { IsWhole place.now }
    ensures { Decides result (IsAbove (last_of before.now) (whole place.now)) }
{
    if before.is_empty() {
        true
    } else {
        is_below(before, place)
    }
}

/// Where the colon of a word `K:M` stands, with K above the word before and M not 0.
fn factor_at(before: &[u8], word: &[u8]) -> Option<usize>
    requires { IsLast before.now }
    ensures { FactorAt before.now word.now result }
{
    let colon = place_of(word, b':');
    if colon >= word.len() {
        return None;
    }
    let place = up_to(word, colon);
    if !is_number(place) {
        return None;
    }
    if !is_after(before, place) {
        return None;
    }
    if !is_other_than_zero(from(word, colon + 1)) {
        return None;
    }
    Some(colon)
}

/// The number of a word above one bound and up to another.
#[tactic(auto, using(crate::proofs::Factors::taking))]
fn place_in(word: &[u8], low: usize, high: u32) -> Option<usize>
    ensures { MatchOption result (IsWhole word.now → pos low <ℤ whole word.now → whole word.now ≤ℤ pos high → ⊥) (λ n. (IsWhole word.now) × (whole word.now ≡ pos n) × (low < n) × (n ≤ high)) }
{
    match whole_in(word) {
        Number::Is(place) => {
            if place <= low as i128 || place > i128::from(high) {
                None
            } else {
                Some(place as usize)
            }
        }
        _ => None,
    }
}

/// The number of a word, where it is narrow.
#[tactic(auto, using(crate::proofs::Factors::taking))]
fn narrow_in(word: &[u8]) -> Option<i128>
    ensures { MatchOption result (IsWhole word.now → IsNarrow (whole word.now) → ⊥) (λ z. IsWhole word.now × (z ≡ whole word.now) × IsNarrow z) }
{
    match whole_in(word) {
        Number::Is(value) => Some(value),
        _ => None,
    }
}

/// Puts a factor at its place, with zeros before it; tells whether both are within their ranges.
fn take_factor(
    out: &mut Seq<i128>,
    count: u32,
    place: &[u8],
    factor: &[u8],
) -> Result<bool, AllocError>
    requires place { IsWhole place.now }
    requires factor { IsWhole factor.now }
    requires some { whole factor.now ≢ pos 0 }
    ensures { IfOk result (TakesFactor count place.now factor.now out.old out.new) }
{
    let Some(at) = place_in(place, out.len(), count) else {
        return Ok(false);
    };
    let Some(value) = narrow_in(factor) else {
        return Ok(false);
    };
    pad(out, at - 1)?;
    out.push(value)?;
    Ok(true)
}

/// The factors that are not 0, each behind its number and after a space, up to the line's end; the others are 0.
fn sparse_in(alloc: Global, text: &[u8], count: u32) -> Result<Seq<i128>, LineFault>
    ensures { FactorsGive true text.now count result }
{
    let mut out = Seq::new(alloc);
    let mut rest = text;
    let mut outside = false;
    let mut before = &text[..0];
    while has_space(rest) {
        let word = next_word(rest);
        let Some(colon) = factor_at(before, word) else {
            return Err(LineFault::Syntax);
        };
        before = up_to(word, colon);
        let taken = take_factor(&mut out, count, before, from(word, colon + 1))?;
        outside |= !taken;
        rest = rest_after(rest);
    }
    if !is_end(rest) {
        return Err(LineFault::Syntax);
    }
    if outside {
        return Err(LineFault::Range);
    }
    pad(&mut out, count as usize)?;
    Ok(out)
}

/// The factors of a leaf, up to the line's end.
fn factors_in(alloc: Global, text: &[u8], second: bool, count: u32) -> Result<Seq<i128>, LineFault>
    ensures { FactorsGive second text.now count result }
{
    if second {
        sparse_in(alloc, text, count)
    } else {
        numbers_in(alloc, text, count)
    }
}

// ---- the head
/// The number at a place as a count from one bound to another.
#[tactic(auto, using(crate::proofs::Heads::counting))]
fn count_at(numbers: &[i128], at: usize, low: u32, high: u32) -> Option<u32>
    requires { at < length numbers.now }
    ensures { MatchOption result ((n : ℕ) → low ≤ n → n ≤ high → cell numbers.now at ≡ pos n → ⊥) (λ n. (cell numbers.now at ≡ pos n) × (low ≤ n) × (n ≤ high)) }
{
    let number = numbers[at];
    if number < i128::from(low) || number > i128::from(high) {
        None
    } else {
        Some(number as u32)
    }
}

/// The three counts, where each is within its range.
#[tactic(auto, using(crate::proofs::Heads::counting))]
fn sizes_of(numbers: &[i128]) -> Option<Sizes>
    requires { length numbers.now ≡ 3 }
    ensures { MatchOption result ((b q p : ℕ) → Counts b q p → numbers.now ≡ pos b ∷ (pos q ∷ (pos p ∷ [])) → ⊥) (λ s. numbers.now ≡ pos s.base ∷ (pos s.quantities ∷ (pos s.pairs ∷ []))) }
{
    let Some(base) = count_at(numbers, 0, 0, 256) else {
        return None;
    };
    let Some(quantities) = count_at(numbers, 1, 0, 512) else {
        return None;
    };
    let Some(pairs) = count_at(numbers, 2, 0, 256) else {
        return None;
    };
    Some(Sizes {
        base,
        quantities,
        pairs,
    })
}

/// The line of the counts.
#[tactic(auto, using(crate::proofs::Heads::heading))]
pub fn counts_line(alloc: Global, text: &[u8]) -> Result<Sizes, LineFault>
    ensures ok { IfOk result (λ s. text.now ≡ sizes_text s.base s.quantities s.pairs) }
    ensures err { IfErr result (LineFails (SizesRight text.now) (SizesFit text.now)) }
{
    let Some(rest) = rest_of(text, b"rows") else {
        return Err(LineFault::Syntax);
    };
    match numbers_in(alloc, rest, 3) {
        Ok(numbers) => match sizes_of(numbers.as_slice()) {
            Some(sizes) => Ok(sizes),
            None => Err(LineFault::Range),
        },
        Err(fault) => Err(fault),
    }
}

/// The two numbers of a pair, where each is one of a quantity.
#[tactic(auto, using(crate::proofs::Heads::counting))]
fn pair_of(numbers: &[i128], quantities: u32) -> Option<(u32, u32)>
    requires { length numbers.now ≡ 2 }
    ensures { MatchOption result ((a b : ℕ) → IsNumber quantities a → IsNumber quantities b → numbers.now ≡ pos a ∷ (pos b ∷ []) → ⊥) (λ p. (numbers.now ≡ pos p.0 ∷ (pos p.1 ∷ [])) × IsNumber quantities p.0 × IsNumber quantities p.1) }
{
    let Some(first) = count_at(numbers, 0, 1, quantities) else {
        return None;
    };
    let Some(second) = count_at(numbers, 1, 1, quantities) else {
        return None;
    };
    Some((first, second))
}

/// The line of a pair.
#[tactic(auto, using(crate::proofs::Heads::heading))]
pub fn pair_line(alloc: Global, text: &[u8], quantities: u32) -> Result<(u32, u32), LineFault>
    ensures text { IfOk result (λ p. text.now ≡ pair_text p) }
    ensures first { IfOk result (λ p. IsNumber quantities p.0) }
    ensures second { IfOk result (λ p. IsNumber quantities p.1) }
    ensures err { IfErr result (LineFails (PairRight text.now) (PairFits quantities text.now)) }
{
    let Some(rest) = rest_of(text, b"pair") else {
        return Err(LineFault::Syntax);
    };
    match numbers_in(alloc, rest, 2) {
        Ok(numbers) => match pair_of(numbers.as_slice(), quantities) {
            Some(pair) => Ok(pair),
            None => Err(LineFault::Range),
        },
        Err(fault) => Err(fault),
    }
}

// ---- points
/// The line of a point.
#[tactic(auto, using(crate::proofs::Heads::heading))]
pub fn point_line(alloc: Global, text: &[u8], base: u32) -> Result<Seq<Frac>, LineFault>
    ensures text { IfOk result (λ fs. text.now ≡ point_text fs) }
    ensures count { IfOk result (λ fs. length fs ≡ base) }
    ensures err { IfErr result (LineFails (PointRight base text.now) (PointFits base text.now)) }
{
    let Some(rest) = rest_of(text, b"point") else {
        return Err(LineFault::Syntax);
    };
    fractions_in(alloc, rest, base)
}

/// The line of a ray's step.
#[tactic(auto, using(crate::proofs::Heads::heading))]
pub fn ray_line(alloc: Global, text: &[u8], base: u32) -> Result<Seq<Frac>, LineFault>
    ensures text { IfOk result (λ fs. text.now ≡ ray_text fs) }
    ensures count { IfOk result (λ fs. length fs ≡ base) }
    ensures err { IfErr result (LineFails (RayRight base text.now) (RayFits base text.now)) }
{
    let Some(rest) = rest_of(text, b"ray") else {
        return Err(LineFault::Syntax);
    };
    fractions_in(alloc, rest, base)
}

// ---- nodes
/// The weight of a word, where it is above 0 and narrow.
#[tactic(auto, using(crate::proofs::Nodes::weighing))]
fn weight_in(word: &[u8]) -> Option<i128>
    ensures { MatchOption result (IsWhole word.now → IsNarrow (whole word.now) → pos 0 <ℤ whole word.now → ⊥) (λ z. IsWhole word.now × (z ≡ whole word.now) × IsNarrow z × (pos 0 <ℤ z)) }
{
    match whole_in(word) {
        Number::Is(weight) => { if weight < 1 { None } else { Some(weight) } }
        _ => None,
    }
}

/// A branch of one of so many pairs, by what follows its word.
#[tactic(auto, using(crate::proofs::Nodes::nodes))]
fn branch_in(alloc: Global, rest: &[u8], pairs: u32) -> Result<Node, LineFault>
    ensures ok { (second : Bool) (q : ℕ) → IfOk result (λ n. (codes "branch" ++ rest.now ≡ node_text second n) × NodeFits pairs q n) }
    ensures err { (second : Bool) (q : ℕ) → IfErr result (LineFails (NodeRight second q (codes "branch" ++ rest.now)) (NodeLineFits second pairs q (codes "branch" ++ rest.now))) }
{
    match numbers_in(alloc, rest, 1) {
        Ok(numbers) => match count_at(numbers.as_slice(), 0, 1, pairs) {
            Some(pair) => Ok(Node::Branch(pair)),
            None => Err(LineFault::Range),
        },
        Err(fault) => Err(fault),
    }
}

/// A leaf that refutes, by what follows its word.
#[tactic(auto, using(crate::proofs::Nodes::nodes))]
fn farkas_in(alloc: Global, rest: &[u8], second: bool, quantities: u32) -> Result<Node, LineFault>
    ensures ok { (p : ℕ) → IfOk result (λ n. (codes "farkas" ++ rest.now ≡ node_text second n) × NodeFits p quantities n) }
    ensures err { (p : ℕ) → IfErr result (LineFails (NodeRight second quantities (codes "farkas" ++ rest.now)) (NodeLineFits second p quantities (codes "farkas" ++ rest.now))) }
{
    match factors_in(alloc, rest, second, quantities) {
        Ok(factors) => Ok(Node::Farkas(factors)),
        Err(fault) => Err(fault),
    }
}

/// A leaf that bounds, by what follows its word.
#[tactic(auto, using(crate::proofs::Nodes::nodes))]
fn bound_in(alloc: Global, rest: &[u8], second: bool, quantities: u32) -> Result<Node, LineFault>
    ensures ok { (p : ℕ) → IfOk result (λ n. (codes "bound" ++ rest.now ≡ node_text second n) × NodeFits p quantities n) }
    ensures err { (p : ℕ) → IfErr result (LineFails (NodeRight second quantities (codes "bound" ++ rest.now)) (NodeLineFits second p quantities (codes "bound" ++ rest.now))) }
{
    if !has_space(rest) {
        return Err(LineFault::Syntax);
    }
    let word = next_word(rest);
    if !is_number(word) {
        return Err(LineFault::Syntax);
    }
    match factors_in(alloc, rest_after(rest), second, quantities) {
        Ok(factors) => match weight_in(word) {
            Some(weight) => Ok(Node::Bound(weight, factors)),
            None => Err(LineFault::Range),
        },
        Err(fault) => Err(fault),
    }
}

/// The line of a node.
#[tactic(auto, using(crate::proofs::Nodes::nodes))]
pub fn node_line(alloc: Global, text: &[u8], second: bool, sizes: Sizes) -> Result<Node, LineFault>
    ensures text { IfOk result (λ n. text.now ≡ node_text second n) }
    ensures fits { IfOk result (NodeFits sizes.pairs sizes.quantities) }
    ensures err { IfErr result (LineFails (NodeRight second sizes.quantities text.now) (NodeLineFits second sizes.pairs sizes.quantities text.now)) }
{
    if let Some(rest) = rest_of(text, b"branch") {
        return branch_in(alloc, rest, sizes.pairs);
    }
    if let Some(rest) = rest_of(text, b"farkas") {
        return farkas_in(alloc, rest, second, sizes.quantities);
    }
    if let Some(rest) = rest_of(text, b"bound") {
        return bound_in(alloc, rest, second, sizes.quantities);
    }
    Err(LineFault::Syntax)
}
