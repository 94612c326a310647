//! The laws of verdicts, stated for the layers above.
ghost use Rattle.emp_verdict.specs.Laws.{PointsSolve, MissingHaveNone, BestAreBest, RaysAreRays};

/// A row point's coordinates, with what the definitions give, solve the file.
pub fn points_solve()
    ensures { PointsSolve }
{}

/// Where there is no row point, no point solves the file.
pub fn missing_have_none()
    ensures { MissingHaveNone }
{}

/// A row point that no row point betters is that of a best point of a bilevel file.
pub fn best_are_best()
    ensures { BestAreBest }
{}

/// A row ray is that of a ray of a bilevel file.
pub fn rays_are_rays()
    ensures { RaysAreRays }
{}
