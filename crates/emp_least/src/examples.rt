//! What the definitions say of small quadratics and systems.
ghost use Rattle.emp_least.specs.Examples.{ExamplesOfLeastPoints, ExamplesOfTwoSystems};

/// Convex squares, least points and steps down without end.
pub fn examples_of_least_points()
    ensures { ExamplesOfLeastPoints }
{}

/// Points of the ray system and of the optimum system.
pub fn examples_of_two_systems()
    ensures { ExamplesOfTwoSystems }
{}
