//! What the definitions say of every text, for the layers above.
//!
//! No function here runs.
ghost use Rattle.info_read.specs.Examples.{Examples};
ghost use Rattle.info_read.specs.Laws.{OneAnnotation};

/// Each text stands for an annotation of the model or has a first fault, one of them; in a model of distinct names there is
/// one such annotation or fault, and not both.
pub fn one_annotation()
    ensures { OneAnnotation }
{}

/// A pair of a variational inequality is accepted, and a late variable, an unknown name, a name where none may stand and a
/// text without a block are refused at their places.
pub fn examples()
    ensures { Examples }
{}
