//! What the definitions say of a small model with a random bound.
ghost use Rattle.emp_sp.specs.Examples.{ExamplesOfScenarios, ExamplesOfPlans, ExamplesOfPlanRays};

/// Scenarios, their probabilities, and where a plan has the number of a variable.
pub fn examples_of_scenarios()
    ensures { ExamplesOfScenarios }
{}

/// Plans that are feasible, what one is worth, and the best of them.
pub fn examples_of_plans()
    ensures { ExamplesOfPlans }
{}

/// Rays along which the worth improves without end.
pub fn examples_of_plan_rays()
    ensures { ExamplesOfPlanRays }
{}
