//! The fold of a matrix.
ghost use Rattle.std.specs.Prelude.{◌≡◌, ◌<◌, ◌≤◌, ◌++◌, length, take, OnOk};
ghost use Rattle.emp_ldl.specs.Form.{IsSymmetric, entries};
ghost use Rattle.emp_ldl.specs.Convex.{ConvexGives, CurveIs};

use crate::matrix::Matrix;
use crate::row::RowFault;
use crate::row::entry::fold_row;
use crate::squares::{Curve, Squares};
use emp_list::seq::Seq;
use emp_num::frac::Frac;
use std::alloc::{AllocError, Global};

/// Puts the first `count` fractions of `row` behind `list`.
fn extend(list: &mut Seq<Frac>, row: &[Frac], count: usize) -> Result<(), AllocError>
    requires { count ≤ length row.now }
    ensures { OnOk result (list.new ≡ list.old ++ take count row.now) }
{
    for i in 0..count {
        list.push(row[i])?;
    }
    Ok(())
}

fn curve(fault: RowFault, k: u32) -> Curve
    ensures { CurveIs fault k result }
{
    match fault {
        RowFault::Not => Curve::Not(k),
        RowFault::Wide => Curve::Wide(k),
        RowFault::NoMemory => Curve::NoMemory,
    }
}

/// The squares whose sum is the form of a symmetric matrix, or the least leading block that is not positive semidefinite.
///
/// Row by row and column by column the residual `r_kj` is the cell less `r_ki * r_ji / d_i` for each earlier column i whose pivot
/// `d_i` is not 0, formed by `Frac::mul`, `div` and `sub`. `Not(k)` exactly where row k is the first to end the elimination and does so by
/// a pivot below 0 or a residual that is not 0 over a pivot of 0; `Wide(k)` exactly where it does so by a wide number.
/// `ConvexGives` of `specs/Convex.antt` says this, and the laws `convex_says` and `one_end` what it means.
pub fn convex(alloc: Global, matrix: &Matrix) -> Result<Squares, Curve>
    requires { IsSymmetric matrix.now.side matrix.now.cells }
    ensures { ConvexGives (entries matrix.now.side matrix.now.cells) matrix.now.side result }
{
    let mut pivots = Seq::new(alloc);
    let mut residuals = Seq::new(alloc);
    for k in 0..matrix.side {
        let at = k as usize;
        match fold_row(alloc, matrix, at, pivots.as_slice(), residuals.as_slice()) {
            Ok(row) => {
                if let Err(_) = extend(&mut residuals, row.as_slice(), at) {
                    return Err(Curve::NoMemory);
                }
                if let Err(_) = pivots.push(*row.get(at)) {
                    return Err(Curve::NoMemory);
                }
            }
            Err(fault) => return Err(curve(fault, k + 1)),
        }
    }
    Ok(Squares {
        side: matrix.side,
        pivots,
        residuals,
    })
}
