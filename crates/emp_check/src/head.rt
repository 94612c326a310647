//! The tests of a certificate's point and ray.
ghost use Rattle.std.specs.Prelude.{◌≡◌, ◌+◌, ◌<◌, ◌≤◌, ℕ, length, slice_index_or};
ghost use Rattle.std.specs.Result.{result_ok};
ghost use Rattle.emp_rows.specs.Affine.{IsRow};
ghost use Rattle.emp_rows.specs.Points.{IsNumber};
ghost use Rattle.emp_rows.specs.Values.{ratio_ok, measured, zero_or};
ghost use Rattle.emp_check.specs.Heads.{tested, still_or, still_holds, stills_hold, falls, point_test, ray_test};

use crate::outcome::{Tested, Why};
use emp_num::exact::Wide;
use emp_num::frac::Frac;
use emp_rows::affine::Affine;
use emp_rows::point::{kinds_hold, measured, measured_of, pairs_hold};
use emp_rows::system::RowSystem;

/// What a test comes to that fails for this reason.
fn tested(why: Why, holds: Result<bool, Wide>) -> Tested
    ensures { result ≡ tested why (result_ok holds) }
{
    match holds {
        Ok(true) => Tested::Fine,
        Ok(false) => Tested::Wrong(why),
        Err(Wide) => Tested::Wide,
    }
}

/// Whether the point is one of the system.
#[tactic(auto, using(crate::proofs::Steps::columning))]
pub fn point_test(system: &RowSystem, point: &[Frac]) -> Tested
    requires width { length point.now ≡ system.now.base }
    ensures { result ≡ point_test system.now point.now }
{
    let of_kind = tested(Why::Quantity, kinds_hold(system, false, point));
    if of_kind != Tested::Fine {
        return of_kind;
    }
    tested(Why::Pair, pairs_hold(system, point))
}

/// True where the value is 0, or else the other test.
#[tactic(auto, using(crate::proofs::Steps::testing))]
fn zero_or(value: Result<Frac, Wide>, rest: Result<bool, Wide>) -> Result<bool, Wide>
    ensures { result_ok result ≡ zero_or (ratio_ok value) (result_ok rest) }
{
    let value = value?;
    if value.num == 0 { Ok(true) } else { rest }
}

/// True where value and rate are 0, or else the other test.
#[tactic(auto, using(crate::proofs::Steps::testing))]
fn still_or(
    value: Result<Frac, Wide>,
    rate: Result<Frac, Wide>,
    rest: Result<bool, Wide>,
) -> Result<bool, Wide>
    ensures { result_ok result ≡ still_or (ratio_ok value) (ratio_ok rate) (result_ok rest) }
{
    let value = value?;
    if value.num == 0 {
        zero_or(rate, rest)
    } else {
        rest
    }
}

/// Whether a member of the pair has value and rate 0.
fn still_holds(
    system: &RowSystem,
    point: &[Frac],
    step: &[Frac],
    pair: (u32, u32),
) -> Result<bool, Wide>
    requires first { IsNumber (length system.now.quantities) pair.0 }
    requires second { IsNumber (length system.now.quantities) pair.1 }
    requires width { length point.now ≡ system.now.base }
    requires step { length step.now ≡ system.now.base }
    ensures { result_ok result ≡ still_holds system.now point.now step.now pair }
{
    let second = still_or(
        measured_of(system, false, pair.1, point),
        measured_of(system, true, pair.1, step),
        Ok(false),
    );
    still_or(
        measured_of(system, false, pair.0, point),
        measured_of(system, true, pair.0, step),
        second,
    )
}

/// Whether a member of each pair has value and rate 0.
#[tactic(auto, using(crate::proofs::Heads::pairing))]
fn stills_hold(system: &RowSystem, point: &[Frac], step: &[Frac]) -> Result<bool, Wide>
    requires width { length point.now ≡ system.now.base }
    requires step { length step.now ≡ system.now.base }
    ensures { result_ok result ≡ stills_hold system.now point.now step.now system.now.pairs }
{
    for at in 0..system.pairs.len() {
        if !still_holds(system, point, step, *system.pairs.get(at))? {
            return Ok(false);
        }
    }
    Ok(true)
}

/// Whether a rate is negative.
#[tactic(auto, using(crate::proofs::Steps::testing))]
fn falls(rate: Result<Frac, Wide>) -> Result<bool, Wide>
    ensures { result_ok result ≡ falls (ratio_ok rate) }
{
    let rate = rate?;
    Ok(rate.num < 0)
}

/// Whether the step is a ray at the point, along which the objective falls.
#[tactic(auto, using(crate::proofs::Steps::columning))]
pub fn ray_test(system: &RowSystem, objective: &Affine, point: &[Frac], step: &[Frac]) -> Tested
    requires objective { IsRow system.now.base objective.now }
    requires width { length point.now ≡ system.now.base }
    requires step { length step.now ≡ system.now.base }
    ensures { result ≡ ray_test system.now objective.now point.now step.now }
{
    let of_kind = tested(Why::Ray, kinds_hold(system, true, step));
    if of_kind != Tested::Fine {
        return of_kind;
    }
    let still = tested(Why::Ray, stills_hold(system, point, step));
    if still != Tested::Fine {
        return still;
    }
    tested(Why::Ray, falls(measured(true, objective, step)))
}
