//! Exchanges by least index do not cycle.
//!
//! The crate has no code that runs. Its functions state the laws that the layers above cite.
#![tactic(auto)]

ghost use Rattle.emp_turns.specs.Example.{ExampleTurns};
ghost use Rattle.emp_turns.specs.Laws.{StepsKeep, ZeroLeaves, NoCycle, EndsInTime, LayoutsAre, ChoicesAre, TurnsAreSteps};

/// A turn of the loop keeps Required quantities at least 0, and does not take the aimed one past 0.
pub fn steps_keep()
    ensures { StepsKeep }
{}

/// An exchange whose leaving row has the value 0 keeps Required quantities at least 0.
pub fn zero_leaves()
    ensures { ZeroLeaves }
{}

/// While the loop runs, no set of columns comes twice.
pub fn no_cycle()
    ensures { NoCycle }
{}

/// There are fewer turns than sets of columns.
pub fn ends_in_time()
    ensures { EndsInTime }
{}

/// A dictionary by places is a table, its pivots are exchanges, and its choice is the choice by labels.
pub fn layouts_are()
    ensures { LayoutsAre }
{}

/// The functions of the places make the choice.
pub fn choices_are()
    ensures { ChoicesAre }
{}

/// A choice that is made and a pivot on it are a turn of the loop.
pub fn turns_are_steps()
    ensures { TurnsAreSteps }
{}

/// A worked example is such a turn, and where it ends the loop is over.
pub fn example_turns()
    ensures { ExampleTurns }
{}
