//! What the definition of a market promises. No function here runs.
ghost use Rattle.emp_make.specs.Laws.{NumbersOfSeven, MarketsAreOne};

/// The numbers of the first three firms of the seed 7.
pub fn numbers_of_seven()
    ensures { NumbersOfSeven }
{}

/// A seed has one market of so many firms, places aside.
pub fn markets_are_one()
    ensures { MarketsAreOne }
{}
