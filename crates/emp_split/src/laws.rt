//! The laws of games with and without numbers, stated for the layers above.
ghost use Rattle.emp_split.specs.Laws.{SplitIsAdmissible, AdmissibleLifts};

/// What solves a game together with numbers for its multipliers solves it.
pub fn split_is_admissible()
    ensures { SplitIsAdmissible }
{}

/// What solves a game of convex players has numbers for its multipliers.
pub fn admissible_lifts()
    ensures { AdmissibleLifts }
{}
