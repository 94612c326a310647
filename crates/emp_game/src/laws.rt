//! The laws of one player, stated for the layers above.
ghost use Rattle.emp_game.specs.Laws.{MultipliersSolve, SolvedIsMultiplied, RowsSolve, MultipliersHaveRows};

/// A player who obeys its rules and has multipliers is solved.
pub fn multipliers_solve()
    ensures { MultipliersSolve }
{}

/// A convex player who is solved has multipliers.
pub fn solved_is_multiplied()
    ensures { SolvedIsMultiplied }
{}

/// The rows of a convex player have its multipliers, and it is solved.
pub fn rows_solve()
    ensures { RowsSolve }
{}

/// A player with multipliers who obeys its rules has the rows.
pub fn multipliers_have_rows()
    ensures { MultipliersHaveRows }
{}
