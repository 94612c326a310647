//! The laws of the polynomials of agents, stated for the layers above.
ghost use Rattle.emp_agents.specs.Convex.{CurvatureIsConvex, ConvexTells};
ghost use Rattle.emp_agents.specs.Given.{AbsentStandsNowhere, GivenFormIs, GivenIsForm, ObjectiveStandsOnce};

/// A variable that is no leaf of an expression does not stand in its polynomial.
pub fn absent_stands_nowhere()
    ensures { AbsentStandsNowhere }
{}

/// In the equation that defines it an objective stands once, by itself.
pub fn objective_stands_once()
    ensures { ObjectiveStandsOnce }
{}

/// The polynomial of an objective is what the one equation that defines it gives, or the variable itself.
pub fn given_form_is()
    ensures { GivenFormIs }
{}

/// The given values of an objective are the values of its polynomial.
pub fn given_is_form()
    ensures { GivenIsForm }
{}

/// An agent is convex in its first counted variables exactly where the block of its second derivatives is positive
/// semidefinite.
pub fn curvature_is_convex()
    ensures { CurvatureIsConvex }
{}

/// What the test of convexity on the second derivatives says of the agent.
pub fn convex_tells()
    ensures { ConvexTells }
{}
