//! Polynomials of degree at most 2, and of degree at most 1.
ghost use Rattle.std.specs.Prelude.{◌≡◌, true, IfOk};
ghost use Rattle.emp_poly.specs.Terms.{is_linear, is_square};

use emp_ast::tree::VarId;
use emp_list::memory::NoMemory;
use emp_list::seq::Seq;
use emp_num::frac::Frac;
use std::alloc::Global;

/// A constant, linear terms and quadratic terms. Each variable and each pair of variables stands at most once, in rising
/// order, in a pair the first variable not after the second, and no coefficient is 0 (`is_linear` and `is_square` of
/// `specs/Terms.antt`). What its value is stands in `specs/Quads.antt`.
#[derive(Drop)]
pub struct Quad {
    pub constant: Frac,
    pub linear: Seq<(VarId, Frac)>,
    pub square: Seq<(VarId, VarId, Frac)>,
    pub ghost linear_kept: { is_linear linear ≡ true },
    pub ghost square_kept: { is_square square ≡ true },
}

/// A constant and linear terms, kept as those of a `Quad`.
#[derive(Drop)]
pub struct Lin {
    pub constant: Frac,
    pub linear: Seq<(VarId, Frac)>,
    pub ghost linear_kept: { is_linear linear ≡ true },
}

impl Quad {
    /// The same polynomial once more.
    pub fn copy(&self, alloc: Global) -> Result<Quad, NoMemory>
        ensures { IfOk result (λ q. q ≡ self.now) }
    {
        let linear = self.linear.copy(alloc)?;
        let square = self.square.copy(alloc)?;
        Ok(Quad {
            constant: self.constant,
            linear,
            square,
        })
    }
}

impl Lin {
    /// The same polynomial once more.
    pub fn copy(&self, alloc: Global) -> Result<Lin, NoMemory>
        ensures { IfOk result (λ l. l ≡ self.now) }
    {
        let linear = self.linear.copy(alloc)?;
        Ok(Lin {
            constant: self.constant,
            linear,
        })
    }
}
