//! A row system as a problem.
use emp_reform::problem::Problem;
use emp_rows::point::RowPoint;
use emp_rows::system::RowSystem;

/// A row system. It is solved by its row points, and a point is better where the objective is lower.
#[derive(Clone, Copy)]
pub struct RowProblem<'a> {
    pub system: &'a RowSystem,
}

impl<'a> Problem for RowProblem<'a> {
    ghost use Rattle.std.specs.Prelude.{◌≡◌, length};
    ghost use Rattle.emp_num.specs.Point.{StandsFor};
    ghost use Rattle.emp_rows.specs.RowPoints.{Solves};
    ghost use Rattle.emp_quantities.specs.System.{IsBelowBy};

    type Point = RowPoint;

    ghost stands = { λ x p. StandsFor x p };

    ghost fits = { λ s p. length p.nums ≡ s.system.now.base };

    ghost solves = { λ s p. Solves s.system.now p };

    ghost better = { λ s p q. IsBelowBy s.system.now.objective p q };

    ghost solving_fits = { λ s p h. h.count };
}
