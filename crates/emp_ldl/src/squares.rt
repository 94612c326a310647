//! The squares of a form, and why there are none.
ghost use Rattle.std.specs.Prelude.{◌≡◌, length};
ghost use Rattle.emp_ldl.specs.Curve.{offset};

use emp_list::seq::Seq;
use emp_num::frac::Frac;

/// The squares whose sum is the form of a matrix: pivot k is the weight of the square of `x_k` and the residuals of column k,
/// each over the pivot, times their coordinates.
#[derive(Drop)]
pub struct Squares {
    /// The side of the matrix.
    pub side: u32,
    /// The pivots, one for each row.
    pub pivots: Seq<Frac>,
    /// The residuals before the pivot of each row, in order of rows and then of columns.
    pub residuals: Seq<Frac>,
    pub ghost pivot_count: { length pivots ≡ side },
    pub ghost residual_count: { length residuals ≡ offset side },
}

/// Why there are no squares. Blocks and rows are counted from 1.
#[derive(Clone, Copy, Debug, PartialEq, Eq)]
pub enum Curve {
    /// The leading block of this side is not positive semidefinite, the smaller ones are, and no number was wide before it was seen.
    Not(u32),
    /// A number that the elimination forms in this row is wide, and nothing ended it before.
    Wide(u32),
    /// There was no memory for the squares.
    NoMemory,
}
