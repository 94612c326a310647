//! The laws of accepted pairs, stated for the layers above.
ghost use Rattle.emp_accepted.specs.Laws.{AcceptedAreStated, StatedAreAccepted, AcceptedBreakNone};

/// An accepted pair has no fault but that a number is wide.
pub fn accepted_are_stated()
    ensures { AcceptedAreStated }
{}

/// A pair that has its row system is accepted.
pub fn stated_are_accepted()
    ensures { StatedAreAccepted }
{}

/// An accepted pair breaks no rule of ownership.
pub fn accepted_break_none()
    ensures { AcceptedBreakNone }
{}
