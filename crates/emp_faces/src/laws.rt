//! What the walk of all pieces shows. The functions state laws, and have no code that runs.
ghost use Rattle.emp_faces.specs.Example.{ExamplePieces};
ghost use Rattle.emp_faces.specs.Shown.{AllPiecesShow};

/// The row points are those of the listed faces, and each piece's point stands on its own face.
pub fn all_pieces_show()
    ensures { AllPiecesShow }
{}

/// Where one of `x` and `y` is 0, two faces come, `x = 0` first; neither alone has all points, and the whole quadrant has others. Of two pairs four
/// faces come, each with its path from the root down.
pub fn example_pieces()
    ensures { ExamplePieces }
{}
