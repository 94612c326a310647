//! The laws of the rows of a game, stated for the layers above.
ghost use Rattle.emp_conditions.specs.Laws.{RowsAreSplit, SplitHasRows};
ghost use Rattle.emp_conditions.specs.Examples.{ExamplesOfRows};

/// The coordinates and multipliers of a row point of convex players split the game.
pub fn rows_are_split()
    ensures { RowsAreSplit }
{}

/// What splits a game is that of a row point.
pub fn split_has_rows()
    ensures { SplitHasRows }
{}

/// Row points and points that are none, and the numbers of shared equations, on examples.
pub fn examples_of_rows()
    ensures { ExamplesOfRows }
{}
