//! What the checker's answers mean. The functions state laws, and have no code that runs.
ghost use Rattle.emp_check.specs.Laws.{AcceptedShow, ShownEnd};

/// A tree that is accepted shows none, or best.
pub fn accepted_show()
    ensures { AcceptedShow }
{}

/// A tree that shows none, or best, is accepted, or a number formed in its tests is wide; and so is a certificate of the
/// system's sizes and pairs that shows its verdict.
pub fn shown_end()
    ensures { ShownEnd }
{}
