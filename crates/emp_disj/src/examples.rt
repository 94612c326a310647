//! What the definitions say of a small model with two disjunctions.
ghost use Rattle.emp_disj.specs.Examples.{ExamplesOfChoices, ExamplesOfChoiceRays};

/// Points that are admissible, and the best of them; what defines the objective.
pub fn examples_of_choices()
    ensures { ExamplesOfChoices }
{}

/// Rays along which the objective gets better without end.
pub fn examples_of_choice_rays()
    ensures { ExamplesOfChoiceRays }
{}
