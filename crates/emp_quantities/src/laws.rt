//! The laws of the row system of a game, stated for the layers above.
ghost use Rattle.emp_quantities.specs.Laws.{SystemIsConditions, SystemIsSound, SystemLifts, SystemOrders, OverIsConditions, OverKeeps, OverIsSound, OverLifts, OverOrders};

/// The row points of the system are those that meet the game's conditions.
pub fn system_is_conditions()
    ensures { SystemIsConditions }
{}

/// A row point's coordinates and multipliers split the game.
pub fn system_is_sound()
    ensures { SystemIsSound }
{}

/// Each point that splits the game is that of a row point.
pub fn system_lifts()
    ensures { SystemLifts }
{}

/// A row point is better exactly where its coordinates are.
pub fn system_orders()
    ensures { SystemOrders }
{}

/// The row points of a system over n are those at which the game's numbers meet its conditions.
pub fn over_is_conditions()
    ensures { OverIsConditions }
{}

/// The game's coordinates and multipliers are those of the row point.
pub fn over_keeps()
    ensures { OverKeeps }
{}

/// A row point's coordinates and multipliers split the game that the system is over.
pub fn over_is_sound()
    ensures { OverIsSound }
{}

/// Each point that splits the game is, with all its numbers times n, that of a row point.
pub fn over_lifts()
    ensures { OverLifts }
{}

/// Of points with a number for each base variable, one is better exactly where its coordinates are.
pub fn over_orders()
    ensures { OverOrders }
{}
