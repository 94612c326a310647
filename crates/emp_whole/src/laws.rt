//! The laws of problems and their games, stated for the layers above.
ghost use Rattle.emp_whole.specs.Whole.{EachProblemIsWhole, ProblemsHaveGames};

/// Some number above 0 is a multiple of the denominators of all coefficients of a problem.
pub fn each_problem_is_whole()
    ensures { EachProblemIsWhole }
{}

/// The problem of a file is, over a multiple of its denominators, the game of the file.
pub fn problems_have_games()
    ensures { ProblemsHaveGames }
{}
