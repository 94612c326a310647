//! What the definitions of models and annotations say of small models.
//!
//! No function here runs. Each states that the right point meets a definition and that a wrong one does not. The models
//! stand in `specs/`, one subject a file.
#![tactic(auto)]

ghost use Rattle.emp_examples.specs.Points.{ExamplesOfPoints};
ghost use Rattle.emp_examples.specs.Values.{ExamplesOfValues};
ghost use Rattle.emp_examples.specs.Parties.{ExamplesOfParties, ExamplesOfImplicits, ExamplesOfDefinitions};
ghost use Rattle.emp_examples.specs.Rivals.{ExamplesOfGivenValues, ExamplesOfRivals, ExamplesOfInequalities, ExamplesOfAgents};
ghost use Rattle.emp_examples.specs.Multipliers.{ExamplesOfMultipliers, ExamplesOfSigns};
ghost use Rattle.emp_examples.specs.Sharing.{ExamplesOfSharing, ExamplesOfRations};
ghost use Rattle.emp_examples.specs.Complementary.{ExamplesOfComplementary, ExamplesOfTargets};
ghost use Rattle.emp_examples.specs.Rules.{ExamplesOfRules};
ghost use Rattle.emp_examples.specs.Bilevel.{ExamplesOfBilevel, ExamplesOfRays, ExamplesOfConvexity};

/// The coordinates of a point, and which fractions stand for it.
pub fn examples_of_points()
    ensures { ExamplesOfPoints }
{}

/// The values of expressions, equations and bounds at points, and which nodes are an expression.
pub fn examples_of_values()
    ensures { ExamplesOfValues }
{}

/// Who owns which variables and who has which equations.
pub fn examples_of_parties()
    ensures { ExamplesOfParties }
{}

/// Implicit variables, which several blocks own.
pub fn examples_of_implicits()
    ensures { ExamplesOfImplicits }
{}

/// Which equation defines an objective, and which are constraints.
pub fn examples_of_definitions()
    ensures { ExamplesOfDefinitions }
{}

/// The value that a definition gives to its variable.
pub fn examples_of_given_values()
    ensures { ExamplesOfGivenValues }
{}

/// The rivals of an agent.
pub fn examples_of_rivals()
    ensures { ExamplesOfRivals }
{}

/// Variational inequalities, with and without a bound, a function and a value of it.
pub fn examples_of_inequalities()
    ensures { ExamplesOfInequalities }
{}

/// Agents that minimise and that maximise.
pub fn examples_of_agents()
    ensures { ExamplesOfAgents }
{}

/// Multipliers, and dual variables that hold them.
pub fn examples_of_multipliers()
    ensures { ExamplesOfMultipliers }
{}

/// The signs of multipliers under `max` and of `=L=`.
pub fn examples_of_signs()
    ensures { ExamplesOfSigns }
{}

/// An equation that two blocks list, with one multiplier for both and without.
pub fn examples_of_sharing()
    ensures { ExamplesOfSharing }
{}

/// Two agents under one sum, which has one multiplier and a dual variable.
pub fn examples_of_rations()
    ensures { ExamplesOfRations }
{}

/// Points that are admissible, and the best of them.
pub fn examples_of_bilevel()
    ensures { ExamplesOfBilevel }
{}

/// Rays along which the leader gains without end.
pub fn examples_of_rays()
    ensures { ExamplesOfRays }
{}

/// An agent that is convex and one that is not.
pub fn examples_of_convexity()
    ensures { ExamplesOfConvexity }
{}

/// The rules of ownership.
pub fn examples_of_rules()
    ensures { ExamplesOfRules }
{}

/// Complementary points.
pub fn examples_of_complementary()
    ensures { ExamplesOfComplementary }
{}

/// The file in the place of a complementarity model, and the rules of matches.
pub fn examples_of_targets()
    ensures { ExamplesOfTargets }
{}
