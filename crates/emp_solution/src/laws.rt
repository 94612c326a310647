//! The laws of files and their rows, stated for the layers above.
ghost use Rattle.emp_solution.specs.Laws.{StatedHasRows, StatedTells, FilledIsFile, SpreadIsStep};

/// The row system of a file is that of its game.
pub fn stated_has_rows()
    ensures { StatedHasRows }
{}

/// A verdict that is shown of the row system tells what it tells of the file.
pub fn stated_tells()
    ensures { StatedTells }
{}

/// The point that is filled from a row point is the file's point of it.
pub fn filled_is_file()
    ensures { FilledIsFile }
{}

/// The step that is spread from a row step is the file's step.
pub fn spread_is_step()
    ensures { SpreadIsStep }
{}
