//! The laws of a file and its game, stated for the layers above.
ghost use Rattle.emp_meaning.specs.Laws.{GameSolvesFile, FileSolvesGame, OrdersAgree, CoordinatesFill, GamesAreWellMade};

/// A point that meets the definitions and whose coordinates solve the game solves the file.
pub fn game_solves_file()
    ensures { GameSolvesFile }
{}

/// A point that solves the file meets the definitions, and its coordinates solve the game.
pub fn file_solves_game()
    ensures { FileSolvesGame }
{}

/// In a bilevel file a point is better for the leader exactly where its coordinates are.
pub fn orders_agree()
    ensures { OrdersAgree }
{}

/// Each point of the variables that are left is that of a point that meets the definitions.
pub fn coordinates_fill()
    ensures { CoordinatesFill }
{}

/// The game of a file is one, with one rule for each equation.
pub fn games_are_well_made()
    ensures { GamesAreWellMade }
{}
