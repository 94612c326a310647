//! The order of fractions, with no product formed.
ghost use Rattle.std.specs.Prelude.{◌*◌, ◌<◌, ◌*ℤ◌};
ghost use Rattle.emp_num.specs.Orders.{IsOrder, IsCountOrder};

use crate::frac::Frac;
use std::cmp::Ordering;

/// How a over b stands to c over d, exactly, by whole parts and remainders in turn.
#[tactic(auto, using(crate::proofs::Quotients::whole_parts))]
pub fn cmp_quotients(a: u128, b: u128, c: u128, d: u128) -> Ordering
    requires positive_b { 0 < b }
    requires positive_d { 0 < d }
    ensures { IsCountOrder result (a * d) (c * b) }
{
    let mut top = a;
    let mut bottom = b;
    let mut other_top = c;
    let mut other_bottom = d;
    'parts: loop {
        let part = top / bottom;
        let other_part = other_top / other_bottom;
        if part < other_part {
            return Ordering::Less;
        }
        if other_part < part {
            return Ordering::Greater;
        }
        let rest = top % bottom;
        let other_rest = other_top % other_bottom;
        if rest == 0 {
            if other_rest == 0 {
                return Ordering::Equal;
            }
            return Ordering::Less;
        }
        if other_rest == 0 {
            return Ordering::Greater;
        }
        top = other_bottom;
        other_top = bottom;
        bottom = other_rest;
        other_bottom = rest;
    }
}

impl Frac {
    /// How a stands to b as numbers. It is exact for every two fractions and forms no product, so there is no error.
    #[tactic(auto, using(crate::proofs::Quotients::signed_orders))]
    pub fn cmp(a: Frac, b: Frac) -> Ordering
        ensures { IsOrder result (a.num *ℤ b.den) (b.num *ℤ a.den) }
    {
        if a.num < 0 && 0 <= b.num {
            return Ordering::Less;
        }
        if 0 <= a.num && b.num < 0 {
            return Ordering::Greater;
        }
        let (m, d) = (a.num.unsigned_abs(), a.den.unsigned_abs());
        let (n, e) = (b.num.unsigned_abs(), b.den.unsigned_abs());
        if a.num < 0 {
            cmp_quotients(n, e, m, d)
        } else {
            cmp_quotients(m, d, n, e)
        }
    }
}
