//! What the way back to a file calls wide, stated for its readers.
ghost use Rattle.emp_chain.specs.Laws.{WideIsFirst};

/// The coordinate that is wide on the way back to a file is the first defined objective whose fold has a wide call.
pub fn wide_is_first()
    ensures { WideIsFirst }
{}
