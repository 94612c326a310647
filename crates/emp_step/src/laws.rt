//! What the steps keep and give. The functions state laws, and have no code that runs.
ghost use Rattle.emp_step.specs.Example.{ExampleSteps};
ghost use Rattle.emp_step.specs.Laws.{StepsLeaveLevel, StepsMark, StepsKeep, StepsTakeFew};

/// Every outcome and every fault leaves a level dictionary.
pub fn steps_leave_level()
    ensures { StepsLeaveLevel }
{}

/// A step marks its own quantity alone, and only where it holds.
pub fn steps_mark()
    ensures { StepsMark }
{}

/// The dictionary after a step has the solutions of the one before it.
pub fn steps_keep()
    ensures { StepsKeep }
{}

/// A step takes no more units than there are sets of columns, and with that many it is not spent.
pub fn steps_take_few()
    ensures { StepsTakeFew }
{}

/// The quantity `-1 + x` is raised, or fixed, by one pivot; the quantity `-1` is not.
pub fn example_steps()
    ensures { ExampleSteps }
{}
