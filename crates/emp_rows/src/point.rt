//! Row points, values of quantities at them, rates along steps, and the test that a point is one of a system.
ghost use Rattle.std.specs.Prelude.{◌≡◌, ◌+◌, ◌<◌, ◌≤◌, ℕ, ℤ, pos, length, slice_index_or, true};
ghost use Rattle.std.specs.Result.{result_ok};
ghost use Rattle.emp_algebra.specs.Vector.{cell};
ghost use Rattle.emp_num.specs.Exact.{IsNarrow};
ghost use Rattle.emp_rows.specs.declared.system.Kind.TheVariants.{Zero};
ghost use Rattle.emp_rows.specs.RowPoints.{no_row, quantity};
ghost use Rattle.emp_rows.specs.Points.{IsNumber};
ghost use Rattle.emp_rows.specs.Values.{ratio_ok, ratio_of, checked_term, checked_plus, valued_step, valued, measured, kind_holds, kinds_hold, zero_or, pair_holds, pairs_hold, holds};
ghost use Rattle.emp_rows.specs.Holding.{HoldsGives};

use crate::affine::Affine;
use crate::system::{Kind, RowSystem};
use emp_list::memory::NoMemory;
use emp_list::seq::Seq;
use emp_num::exact::{Wide, product};
use emp_num::frac::Frac;
use std::alloc::Global;
use std::marker::Model;

/// One fraction for each base variable of a row system. Contracts see the list of them.
#[derive(Drop)]
pub struct RowPoint {
    values: Seq<Frac>,
}

impl Model for RowPoint {
    ghost use Rattle.std.specs.Prelude.{List};
    ghost use Rattle.emp_num.specs.declared.frac.Frac.{Frac};

    ghost Value = { List Frac };

    ghost view = { λ p. p.values };
}

impl RowPoint {
    ghost use Rattle.std.specs.Prelude.{IfOk};

    /// The point with these values.
    pub fn of(values: Seq<Frac>) -> RowPoint
        ensures { result ≡ values }
    {
        RowPoint { values }
    }

    /// The values, in the order of the base variables.
    pub fn as_slice(&self) -> &[Frac]
        ensures { result.now ≡ self.now }
    {
        self.values.as_slice()
    }

    /// The same point once more.
    pub fn copy(&self, alloc: Global) -> Result<RowPoint, NoMemory>
        ensures { IfOk result (λ p. p ≡ self.now) }
    {
        let values = self.values.copy(alloc)?;
        Ok(RowPoint { values })
    }
}

// ---- values
/// A coefficient times a coordinate.
#[tactic(auto, using(crate::proofs::Values::valuing))]
fn term(coefficient: i128, coordinate: Frac) -> Result<Frac, Wide>
    ensures { ratio_ok result ≡ checked_term coefficient (ratio_of coordinate) }
{
    let top = product(coefficient, coordinate.num)?;
    Ok(Frac::reduced(top, coordinate.den))
}

/// The sum.
#[tactic(auto, using(crate::proofs::Values::valuing))]
fn plus(a: Frac, b: Frac) -> Result<Frac, Wide>
    ensures { ratio_ok result ≡ checked_plus (ratio_of a) (ratio_of b) }
{
    Frac::add(a, b)
}

/// The total with a coefficient times a coordinate added.
fn valued_step(total: Frac, cells: &[i128], point: &[Frac], at: usize) -> Result<Frac, Wide>
    requires cells { at < length cells.now }
    requires point { at < length point.now }
    ensures { ratio_ok result ≡ valued_step (ratio_of total) (cell cells.now at) (ratio_of (slice_index_or point.now at total)) }
{
    let more = term(cells[at], point[at])?;
    plus(total, more)
}

/// The fold of a value.
#[tactic(auto, using(crate::proofs::Values::folding))]
fn valued(start: Frac, cells: &[i128], point: &[Frac]) -> Result<Frac, Wide>
    requires { length point.now ≡ length cells.now }
    ensures { ratio_ok result ≡ valued (ratio_of start) cells.now point.now }
{
    let mut total = start;
    for at in 0..cells.len() {
        total = valued_step(total, cells, point, at)?;
    }
    Ok(total)
}

/// The value of a quantity at a point, or its rate along a step, in lowest terms.
///
/// It is folded from the constant (from 0 for a rate) by adding coefficient times coordinate, in the order of the base
/// variables. `Wide` exactly where a number formed has an absolute value of 2^126 or more, as `measured` of
/// `specs/Values.antt` says it.
#[tactic(auto, using(crate::proofs::Values::valuing))]
pub fn measured(rate: bool, row: &Affine, point: &[Frac]) -> Result<Frac, Wide>
    requires constant { IsNarrow row.now.constant }
    requires width { length point.now ≡ length row.now.cells }
    ensures { ratio_ok result ≡ measured rate row.now point.now }
{
    let start = if rate { 0 } else { row.constant };
    valued(Frac::reduced(start, 1), row.cells.as_slice(), point)
}

/// The value or the rate of the quantity counted from 0.
#[tactic(auto, using(crate::proofs::Systems::keeping))]
fn measured_at(system: &RowSystem, rate: bool, at: usize, point: &[Frac]) -> Result<Frac, Wide>
    requires at { at < length system.now.quantities }
    requires width { length point.now ≡ system.now.base }
    ensures { ratio_ok result ≡ measured rate (slice_index_or system.now.quantities at no_row) point.now }
{
    measured(rate, system.quantities.get(at), point)
}

/// The value or the rate of the quantity of this number, from 1, as `measured` says it.
pub fn measured_of(
    system: &RowSystem,
    rate: bool,
    number: u32,
    point: &[Frac],
) -> Result<Frac, Wide>
    requires number { IsNumber (length system.now.quantities) number }
    requires width { length point.now ≡ system.now.base }
    ensures { ratio_ok result ≡ measured rate (quantity system.now number) point.now }
{
    measured_at(system, rate, number as usize - 1, point)
}

// ---- tests
/// Whether a value is as the kind asks.
#[tactic(auto, using(crate::proofs::Tests::testing))]
fn kind_holds(kind: Kind, value: Result<Frac, Wide>) -> Result<bool, Wide>
    ensures { result_ok result ≡ kind_holds kind (ratio_ok value) }
{
    let value = value?;
    match kind {
        Kind::Zero => Ok(value.num == 0),
        Kind::Nonneg => Ok(value.num >= 0),
    }
}

/// Whether each quantity's value at the point, or its rate along it as a step, is as its kind asks.
#[tactic(auto, using(crate::proofs::Tests::kinding))]
pub fn kinds_hold(system: &RowSystem, rate: bool, point: &[Frac]) -> Result<bool, Wide>
    requires width { length point.now ≡ system.now.base }
    ensures { result_ok result ≡ kinds_hold rate system.now.quantities system.now.kinds point.now }
{
    for at in 0..system.quantities.len() {
        let value = measured_at(system, rate, at, point);
        if !kind_holds(*system.kinds.get(at), value)? {
            return Ok(false);
        }
    }
    Ok(true)
}

/// True where the value is 0, or else the other test.
#[tactic(auto, using(crate::proofs::Tests::testing))]
fn zero_or(value: Result<Frac, Wide>, rest: Result<bool, Wide>) -> Result<bool, Wide>
    ensures { result_ok result ≡ zero_or (ratio_ok value) (result_ok rest) }
{
    let value = value?;
    if value.num == 0 { Ok(true) } else { rest }
}

/// Whether a member of the pair is 0.
#[tactic(auto, using(crate::proofs::Tests::testing))]
fn pair_holds(system: &RowSystem, point: &[Frac], pair: (u32, u32)) -> Result<bool, Wide>
    requires first { IsNumber (length system.now.quantities) pair.0 }
    requires second { IsNumber (length system.now.quantities) pair.1 }
    requires width { length point.now ≡ system.now.base }
    ensures { result_ok result ≡ pair_holds system.now point.now pair }
{
    let second = zero_or(measured_of(system, false, pair.1, point), Ok(false));
    zero_or(measured_of(system, false, pair.0, point), second)
}

/// Whether a member of each pair is 0 at the point.
#[tactic(auto, using(crate::proofs::Tests::pairing))]
pub fn pairs_hold(system: &RowSystem, point: &[Frac]) -> Result<bool, Wide>
    requires width { length point.now ≡ system.now.base }
    ensures { result_ok result ≡ pairs_hold system.now point.now system.now.pairs }
{
    for at in 0..system.pairs.len() {
        if !pair_holds(system, point, *system.pairs.get(at))? {
            return Ok(false);
        }
    }
    Ok(true)
}

/// Whether each quantity is of its kind at the point, and then a member of each pair 0.
#[tactic(auto, using(crate::proofs::Tests::joining))]
fn all_hold(system: &RowSystem, point: &[Frac]) -> Result<bool, Wide>
    requires width { length point.now ≡ system.now.base }
    ensures { result_ok result ≡ holds system.now point.now }
{
    if !kinds_hold(system, false, point)? {
        return Ok(false);
    }
    pairs_hold(system, point)
}

/// Whether the point is one of the system: each quantity of its kind, and a member of each pair 0. No memory is taken.
///
/// `Wide` exactly where the fold of a quantity's value is wide and no earlier quantity broke its kind, as `HoldsGives` of
/// `specs/Holding.antt` says it. The values of the pairs were folded before, and are not wide there.
pub fn holds(system: &RowSystem, point: &RowPoint) -> Result<bool, Wide>
    requires width { length point.now ≡ system.now.base }
    ensures { HoldsGives system.now point.now result }
{
    all_hold(system, point.as_slice())
}
