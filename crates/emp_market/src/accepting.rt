//! The files of a generated market are an accepted pair.
ghost use Rattle.emp_market.specs.Laws.{MarketsAreAccepted, MarketAnnotsFit, MarketGoalsFit, MarketsAreKept};

/// The annotation of a market names variables and equations of its model.
pub fn market_annots_fit()
    ensures { MarketAnnotsFit }
{}

/// The solve statement of a market names no variable that its model has not.
pub fn market_goals_fit()
    ensures { MarketGoalsFit }
{}

/// A market breaks no rule of ownership.
pub fn markets_are_kept()
    ensures { MarketsAreKept }
{}

/// The files of a market of at most 40 firms are an accepted pair.
pub fn markets_are_accepted()
    ensures { MarketsAreAccepted }
{}
