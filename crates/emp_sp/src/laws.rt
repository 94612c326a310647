//! The laws of outcomes and scenarios, stated for the layers above.
ghost use Rattle.emp_sp.specs.Equations.{EquationsKeepOutcomes};
ghost use Rattle.emp_sp.specs.Scenes.{ScenesAreRows};
ghost use Rattle.emp_sp.specs.Outcomes.{OutcomesKeepValues};

/// With the outcomes in the place of the random variables a polynomial whose products each have a random factor is affine, and
/// has the same value.
pub fn outcomes_keep_values()
    ensures { OutcomesKeepValues }
{}

/// A point with the outcomes meets an equation exactly where its affine polynomial of these outcomes stands so to 0.
pub fn equations_keep_outcomes()
    ensures { EquationsKeepOutcomes }
{}

/// The point of a scenario is feasible exactly where it meets the bounds, the definition and the affine conditions of the
/// scenario's outcomes.
pub fn scenes_are_rows()
    ensures { ScenesAreRows }
{}
