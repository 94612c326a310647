//! What a problem means.
ghost use Rattle.emp_num.specs.Point.{Point};

/// A problem: which points fit it, which solve it, and which is better.
///
/// The meanings are over points without bound. `stands` ties them to the points that the program has.
pub trait Problem {
    /// A point as the program has it. Each problem has a type of its own, so that a way back at the wrong layer does not
    /// compile.
    type Point: Drop;

    // the run-time point stands for the point
    ghost stands: { Self.Point → Point → Type 0 };

    // the point has exactly the coordinates and numbers that a point of this problem has
    ghost fits: { Self → Point → Type 0 };

    // the point solves the problem
    ghost solves: { Self → Point → Type 0 };

    // the first point is strictly better than the second
    ghost better: { Self → Point → Point → Type 0 };

    // only points that fit solve
    ghost solving_fits: { (s : Self) (p : Point) → solves s p → fits s p };
}
