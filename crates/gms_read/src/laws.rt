//! What the definitions say of every text, for the layers above.
//!
//! No function here runs.
ghost use Rattle.gms_read.specs.Laws.{OneModel};

/// Each text stands for a model or has a fault, its place included, one of them, and not both.
pub fn one_model()
    ensures { OneModel }
{}
