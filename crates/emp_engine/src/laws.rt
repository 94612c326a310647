//! The law of what is answered over texts. The function states it, and has no code that runs.
ghost use Rattle.emp_engine.specs.Laws.{OneOutcome};

/// Two outcomes that a request may have over the same texts are the same outcome, for each verb but `make`.
pub fn one_outcome()
    ensures { OneOutcome }
{}
