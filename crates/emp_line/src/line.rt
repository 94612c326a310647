//! Lines of a dictionary, in whole numbers.
ghost use Rattle.std.specs.Prelude.{◌≡◌, ◌≢◌, ℤ, pos, neg_ℤ, ◌*ℤ◌};
ghost use Rattle.emp_num.specs.Exact.{IsNarrow};
ghost use Rattle.emp_line.specs.Pivot.{sign};

use emp_list::seq::Seq;

/// `denom * v = constant + sum of cells * w`, where v is the line's own quantity and the w are those of the columns.
#[derive(Drop)]
pub struct Line {
    pub denom: i128,
    pub constant: i128,
    pub cells: Seq<i128>,
}

/// `number` times the sign of `of`, which is not 0.
pub fn with_sign(of: i128, number: i128) -> i128
    requires nonzero { of ≢ pos 0 }
    requires narrow { IsNarrow number }
    ensures { result ≡ sign of *ℤ number }
{
    if of > 0 { number } else { -number }
}

/// `number` times the opposite of the sign of `of`, which is not 0.
pub fn against_sign(of: i128, number: i128) -> i128
    requires nonzero { of ≢ pos 0 }
    requires narrow { IsNarrow number }
    ensures { result ≡ neg_ℤ (sign of) *ℤ number }
{
    if of > 0 { -number } else { number }
}
