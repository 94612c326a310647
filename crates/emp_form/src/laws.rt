//! What the polynomial of an expression says of its values.
ghost use Rattle.emp_form.specs.Laws.{ValuesAreForms, ZeroMakesNoCall, OneFaultAtEachRoot};
ghost use Rattle.emp_form.specs.Partial.{StepExpands};

/// An expression that is a polynomial has a value at every point, which is that of its polynomial.
pub fn values_are_forms()
    ensures { ValuesAreForms }
{}

/// A call with a fraction that is 0 is never wide.
pub fn zero_makes_no_call()
    ensures { ZeroMakesNoCall }
{}

/// At one root no two of the faults by coefficients come, and none where the root fits.
pub fn one_fault()
    ensures { OneFaultAtEachRoot }
{}

/// Along a step the value is that at the start, plus each step times the derivative, plus the quadratic part of the step.
pub fn step_expands()
    ensures { StepExpands }
{}
