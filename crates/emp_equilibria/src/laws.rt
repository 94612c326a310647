//! What the faces that a walk lists say of a file. The functions state laws, and have no code that runs.
ghost use Rattle.emp_equilibria.specs.Laws.{FacesSolveFiles};

/// Where the row points are those of some faces, what solves the file is what has a point of one of them for its coordinates.
pub fn faces_solve_files()
    ensures { FacesSolveFiles }
{}
