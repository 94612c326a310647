//! Square matrices of fractions.
ghost use Rattle.std.specs.Prelude.{◌≡◌, ◌≢◌, ◌<◌, ◌*◌, ◌↔◌, ℕ, IsTrue, MatchOption, length};
ghost use Rattle.emp_ldl.specs.Form.{IsMatrix, IsSymmetric, Mirrors, entry};

use emp_list::seq::Seq;
use emp_num::frac::Frac;

/// A square matrix of fractions. Its cells stand row by row, and are as many as the side squared.
#[derive(Drop)]
pub struct Matrix {
    /// How many rows and columns there are.
    pub side: u32,
    /// The cells, row by row.
    pub cells: Seq<Frac>,
    pub ghost count: { length cells ≡ side * side },
}

impl Matrix {
    /// The matrix with these cells, row by row: `None` exactly where they are not as many as the side squared.
    pub fn new(side: u32, cells: Seq<Frac>) -> Option<Matrix>
        ensures { MatchOption result (length cells ≢ side * side) (λ m. (m.side ≡ side) × (m.cells ≡ cells)) }
    {
        if cells.len() as u64 != u64::from(side) * u64::from(side) {
            return None;
        }
        Some(Matrix { side, cells })
    }

    /// Whether each cell is the one across the diagonal, as `IsSymmetric` of `specs/Form.antt` says it.
    pub fn is_symmetric(&self) -> bool
        ensures { IsTrue result ↔ IsSymmetric self.now.side self.now.cells }
    {
        is_mirrored(self.cells.as_slice(), self.side as usize)
    }

    /// The cell in row `k` and column `j`, counted from 0.
    #[tactic(auto, using(crate::proofs::Places::placing))]
    pub fn cell(&self, k: usize, j: usize) -> Frac
        requires row { k < self.now.side }
        requires column { j < self.now.side }
        ensures { result ≡ entry self.now.side self.now.cells k j }
    {
        *self.cells.get(k * self.side as usize + j)
    }
}

/// Whether two fractions are one value, which they are exactly where they are equal as numbers.
#[tactic(auto, using(emp_num::proofs::Same::frac_eq))]
pub fn is_same(a: Frac, b: Frac) -> bool
    ensures { IsTrue result ↔ (a ≡ b) }
{
    a == b
}

/// Whether row `k` is column `k` before the diagonal.
#[tactic(auto, using(crate::proofs::Places::placing))]
fn mirrors(cells: &[Frac], side: usize, k: usize) -> bool
    requires count { length cells.now ≡ side * side }
    requires row { k < side }
    ensures { IsTrue result ↔ Mirrors side cells.now k k }
{
    for j in 0..k {
        if !is_same(cells[k * side + j], cells[j * side + k]) {
            return false;
        }
    }
    true
}

/// Whether each row is the column across the diagonal.
fn is_mirrored(cells: &[Frac], side: usize) -> bool
    requires count { length cells.now ≡ side * side }
    ensures { IsTrue result ↔ IsSymmetric side cells.now }
{
    for k in 0..side {
        if !mirrors(cells, side, k) {
            return false;
        }
    }
    true
}
