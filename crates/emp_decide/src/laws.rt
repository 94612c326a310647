//! What is read off a dictionary decides. The functions state laws, and have no code that runs.
ghost use Rattle.emp_decide.specs.Example.{ExampleReads};
ghost use Rattle.emp_decide.specs.Laws.{LeastBounds, PointsTell, RefusedRefutes, StepsTell};

/// The factors of a row that cannot be moved to 0 are those of a Farkas row.
pub fn refused_refutes()
    ensures { RefusedRefutes }
{}

/// Where the objective cannot be made less, the factors of its row are those of a Bound row.
pub fn least_bounds()
    ensures { LeastBounds }
{}

/// At the point of a dictionary each quantity has the value of its row, or 0 where it has a column.
pub fn points_tell()
    ensures { PointsTell }
{}

/// Along the step of a column each quantity has the rate that its row has there.
pub fn steps_tell()
    ensures { StepsTell }
{}

/// The row `v = -1 - w` refutes with a factor of 1 on v and on w.
pub fn example_reads()
    ensures { ExampleReads }
{}
