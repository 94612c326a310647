//! Points of row systems, at the bounds of quantities and of numbers.
ghost use Rattle.std.specs.Prelude.{◌≡◌, length, IfOk};

use crate::systems::{falling, paired};
use emp_list::seq::Seq;
use emp_num::exact::Wide;
use emp_num::frac::Frac;
use emp_rows::point::{RowPoint, holds};
use std::alloc::Global;
use std::test::Fail;

// 2^126 - 1
const MOST: i128 = 85070591730234615865843651857942052863;

fn point_of(alloc: Global, x: (i128, i128), y: (i128, i128)) -> Result<RowPoint, Fail>
    ensures { IfOk result (λ point. length point ≡ 2) }
{
    let mut values = Seq::new(alloc);
    values.push(Frac::new(x.0, x.1)?)?;
    values.push(Frac::new(y.0, y.1)?)?;
    Ok(RowPoint::of(values))
}

#[test]
fn holds_between_bounds(rt: HostRuntime) -> Result<(), Fail> {
    let system = falling(rt.alloc())?;
    for (x, expected) in [
        ((-1, 5), false),
        ((0, 1), true),
        ((5, 2), true),
        ((3, 1), true),
        ((16, 5), false),
        ((MOST, 1), false),
    ] {
        let point = point_of(rt.alloc(), x, (0, 1))?;
        assert!(rt; holds(&system, &point) == Ok(expected), "{x:?}");
    }
    Ok(())
}

#[test]
fn holds_for_pairs(rt: HostRuntime) -> Result<(), Fail> {
    for (constant, x, y, expected) in [
        // a member of each pair is 0, of the first pair alone, and of none
        (0, (0, 1), (1, 1), Ok(true)),
        (1, (0, 1), (1, 1), Ok(false)),
        (1, (1, 1), (2, 1), Ok(false)),
        // x + 1 is 2^126
        (1, (MOST - 1, 1), (1, 1), Ok(false)),
        (1, (MOST, 1), (1, 1), Err(Wide)),
        // y - 1 is below 0, which comes first
        (1, (MOST, 1), (0, 1), Ok(false)),
    ] {
        let system = paired(rt.alloc(), constant)?;
        let point = point_of(rt.alloc(), x, y)?;
        assert!(rt; holds(&system, &point) == expected, "{x:?} {y:?}");
    }
    Ok(())
}
