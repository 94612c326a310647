//! The laws of a file, its problem and its rows, stated for the layers above.
ghost use Rattle.emp_layers.specs.Laws.{SolvingFits, ImageIsFile, ImageIsOne, ImagesAreSame, ProblemIsSound, ProblemKeepsOrder, ProblemLifts, RowsFit, RowsAreSound, RowsKeepOrder, RowsLift};

/// Only points with a coordinate for each variable solve a file.
pub fn solving_fits()
    ensures { SolvingFits }
{}

/// The point of the file that a point of the problem stands for has its coordinates and meets the definitions.
pub fn image_is_file()
    ensures { ImageIsFile }
{}

/// Each point of the file with these coordinates that meets the definitions is that one.
pub fn image_is_one()
    ensures { ImageIsOne }
{}

/// The same point of the problem stands for the same point of the file.
pub fn images_are_same()
    ensures { ImagesAreSame }
{}

/// What solves the problem stands for what solves the file.
pub fn problem_is_sound()
    ensures { ProblemIsSound }
{}

/// One point of the problem is better exactly where that of the file is.
pub fn problem_keeps_order()
    ensures { ProblemKeepsOrder }
{}

/// What solves the file is what some point that solves the problem stands for.
pub fn problem_lifts()
    ensures { ProblemLifts }
{}

/// The first coordinates of a point of the rows fit the problem.
pub fn rows_fit()
    ensures { RowsFit }
{}

/// The first coordinates of a row point solve the problem.
pub fn rows_are_sound()
    ensures { RowsAreSound }
{}

/// One row point is better exactly where its first coordinates are.
pub fn rows_keep_order()
    ensures { RowsKeepOrder }
{}

/// What solves the problem has the first coordinates of some row point.
pub fn rows_lift()
    ensures { RowsLift }
{}
