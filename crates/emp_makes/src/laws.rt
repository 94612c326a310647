//! The laws of what `make` answers.
ghost use Rattle.emp_makes.specs.Laws.{MakesEnd, MadeShows, OneSummary, OneMake};

/// A market is summed up, or a number is wide, or the work is spent.
pub fn makes_end()
    ensures { MakesEnd }
{}

/// The sums are those of an equilibrium of a market of the seed.
pub fn made_shows()
    ensures { MadeShows }
{}

/// A model and an annotation are summed up in one way.
pub fn one_summary()
    ensures { OneSummary }
{}

/// A seed and a count of firms in range have one outcome, unless a coefficient is wide, whose place a market leaves open.
pub fn one_make()
    ensures { OneMake }
{}
