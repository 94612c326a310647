//! The tests of a leaf.
ghost use Rattle.std.specs.Prelude.{◌≡◌, ◌+◌, ◌<◌, ◌≤◌, ℕ, ℤ, pos, length, slice_index_or, Some, None};
ghost use Rattle.std.specs.List.{All};
ghost use Rattle.std.specs.Result.{result_ok};
ghost use Rattle.emp_algebra.specs.Vector.{cell};
ghost use Rattle.emp_num.specs.Exact.{IsNarrow};
ghost use Rattle.emp_rows.specs.declared.system.Kind.TheVariants.{Zero};
ghost use Rattle.emp_rows.specs.Affine.{IsRow};
ghost use Rattle.emp_rows.specs.RowPoints.{no_row};
ghost use Rattle.emp_cert.specs.Paths.{member, is_on};
ghost use Rattle.emp_check.specs.Steps.{PathFits, PlaceFits};
ghost use Rattle.emp_check.specs.Tests.{number, stepped, summed, lead, leaf_sum, is_weighted, zero_test, columns_test, negative_test, factor_test, factors_test, objective_of};

use crate::outcome::{Tested, Why};
use crate::trail::Trail;
use emp_cert::tree::Turn;
use emp_num::exact::{Wide, difference, product, sum};
use emp_rows::affine::Affine;
use emp_rows::system::{Kind, RowSystem};

/// The quantity that a turn takes to be 0.
fn member(system: &RowSystem, turn: Turn) -> u32
    requires pairs { (0 < turn.pair) × (turn.pair ≤ length system.now.pairs) }
    ensures { result ≡ member system.now turn }
{
    let pair = *system.pairs.get(turn.pair as usize - 1);
    if turn.second { pair.1 } else { pair.0 }
}

/// Whether the quantity is taken to be 0 on the path.
#[tactic(auto, using(crate::proofs::Trails::walking))]
fn is_on(system: &RowSystem, trail: &Trail, quantity: u32) -> bool
    requires { PathFits system.now trail.now }
    ensures { result ≡ is_on system.now trail.now quantity }
{
    for at in 0..trail.len() {
        if member(system, trail.get(at)) == quantity {
            return true;
        }
    }
    false
}

/// A row's number for a base variable, or its constant.
fn number(row: &Affine, place: Option<usize>) -> i128
    requires { PlaceFits (length row.now.cells) place }
    ensures { result ≡ number place row.now }
{
    match place {
        Some(base) => row.cells.as_slice()[base],
        None => row.constant,
    }
}

/// The total with a product more, or less.
#[tactic(auto, using(crate::proofs::Steps::stepping))]
fn step(minus: bool, total: i128, factor: i128, value: i128) -> Result<i128, Wide>
    ensures { result_ok result ≡ stepped minus total factor value }
{
    if factor == 0 {
        return Ok(total);
    }
    let part = product(factor, value)?;
    if minus {
        difference(total, part)
    } else {
        sum(total, part)
    }
}

/// The number of the quantity counted from 0.
fn number_at(system: &RowSystem, at: usize, place: Option<usize>) -> i128
    requires at { at < length system.now.quantities }
    requires place { PlaceFits system.now.base place }
    ensures { result ≡ number place (slice_index_or system.now.quantities at no_row) }
{
    number(system.quantities.get(at), place)
}

/// What a sum begins with.
#[tactic(auto, using(crate::proofs::Steps::stepping))]
fn lead(system: &RowSystem, weight: Option<i128>, place: Option<usize>) -> Result<i128, Wide>
    requires place { PlaceFits system.now.base place }
    ensures { result_ok result ≡ lead system.now weight place }
{
    let Some(weight) = weight else {
        return Ok(0);
    };
    match &system.objective {
        Some(row) => product(weight, number(row, place)),
        None => Ok(0),
    }
}

/// A total with the products of the factors and the quantities' numbers more, or less.
#[tactic(auto, using(crate::proofs::Steps::summing))]
fn summed(
    system: &RowSystem,
    minus: bool,
    place: Option<usize>,
    start: i128,
    factors: &[i128],
) -> Result<i128, Wide>
    requires place { PlaceFits system.now.base place }
    requires factors { length factors.now ≡ length system.now.quantities }
    ensures { result_ok result ≡ summed minus place start factors.now system.now.quantities }
{
    let mut total = start;
    for at in 0..factors.len() {
        total = step(minus, total, factors[at], number_at(system, at, place))?;
    }
    Ok(total)
}

/// A leaf's sum at a base variable, or its constant.
#[tactic(auto, using(crate::proofs::Steps::stepping))]
pub fn leaf_sum(
    system: &RowSystem,
    weight: Option<i128>,
    factors: &[i128],
    place: Option<usize>,
) -> Result<i128, Wide>
    requires place { PlaceFits system.now.base place }
    requires factors { length factors.now ≡ length system.now.quantities }
    ensures { result_ok result ≡ leaf_sum system.now weight factors.now place }
{
    let start = lead(system, weight, place)?;
    summed(system, weight.is_some(), place, start, factors)
}

/// Whether a base variable's sum is 0.
#[tactic(auto, using(crate::proofs::Steps::testing))]
fn zero_test(sum: Result<i128, Wide>) -> Tested
    ensures { result ≡ zero_test (result_ok sum) }
{
    match sum {
        Ok(0) => Tested::Fine,
        Ok(_) => Tested::Wrong(Why::NotConstant),
        Err(Wide) => Tested::Wide,
    }
}

/// Whether a leaf's constant is negative.
#[tactic(auto, using(crate::proofs::Steps::testing))]
pub fn negative_test(sum: Result<i128, Wide>) -> Tested
    ensures { result ≡ negative_test (result_ok sum) }
{
    match sum {
        Ok(constant) => {
            if constant < 0 {
                Tested::Fine
            } else {
                Tested::Wrong(Why::Constant)
            }
        }
        Err(Wide) => Tested::Wide,
    }
}

/// Whether the sum at each base variable is 0.
#[tactic(auto, using(crate::proofs::Steps::columning))]
pub fn columns_test(system: &RowSystem, weight: Option<i128>, factors: &[i128]) -> Tested
    requires factors { length factors.now ≡ length system.now.quantities }
    ensures { result ≡ columns_test system.now weight factors.now 0 system.now.base }
{
    let base = system.base as usize;
    for at in 0..base {
        let tested = zero_test(leaf_sum(system, weight, factors, Some(at)));
        if tested != Tested::Fine {
            return tested;
        }
    }
    Tested::Fine
}

/// Whether the factor of the quantity counted from 0 fits its kind on the path.
#[tactic(auto, using(crate::proofs::Steps::testing))]
fn factor_test(system: &RowSystem, trail: &Trail, factors: &[i128], at: usize) -> Tested
    requires path { PathFits system.now trail.now }
    requires kind { at < length system.now.kinds }
    requires few { length system.now.kinds ≤ 512 }
    requires factor { at < length factors.now }
    ensures { result ≡ factor_test (is_on system.now trail.now (at + 1)) (slice_index_or system.now.kinds at Zero) (cell factors.now at) }
{
    match *system.kinds.get(at) {
        Kind::Zero => Tested::Fine,
        Kind::Nonneg => {
            if factors[at] < 0 && !is_on(system, trail, at as u32 + 1) {
                Tested::Wrong(Why::Factor)
            } else {
                Tested::Fine
            }
        }
    }
}

/// Whether each factor fits its quantity's kind on the path.
#[tactic(auto, using(crate::proofs::Steps::factoring))]
pub fn factors_test(system: &RowSystem, trail: &Trail, factors: &[i128]) -> Tested
    requires path { PathFits system.now trail.now }
    requires factors { length factors.now ≡ length system.now.quantities }
    ensures { result ≡ factors_test system.now trail.now 1 system.now.kinds factors.now }
{
    for at in 0..factors.len() {
        let tested = factor_test(system, trail, factors, at);
        if tested != Tested::Fine {
            return tested;
        }
    }
    Tested::Fine
}
