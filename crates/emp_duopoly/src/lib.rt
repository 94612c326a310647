//! Each generated market has an equilibrium, whatever the seed.
//!
//! No function here runs. The law stands in `specs/Laws.antt`.
#![tactic(auto)]

ghost use Rattle.emp_duopoly.specs.Laws.{MarketsHaveEquilibria};

/// Each generated market has an equilibrium.
pub fn markets_have_equilibria()
    ensures { MarketsHaveEquilibria }
{}
