//! The laws of the numbers that texts name, stated for the layers above.
ghost use Rattle.emp_answers.specs.Laws.{AnnotationsFit, GoalsFit};

/// An annotation names variables and equations of its model.
pub fn annotations_fit()
    ensures { AnnotationsFit }
{}

/// A solve statement names a variable of its model.
pub fn goals_fit()
    ensures { GoalsFit }
{}
