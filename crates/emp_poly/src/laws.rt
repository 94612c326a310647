//! What polynomials are, stated for the layers above.
ghost use Rattle.emp_poly.specs.Laws.{QuadsHaveForms, ValuesTellCoefficients};

/// Each polynomial has a form, and its value at every point is that of each form that it has.
pub fn quads_have_forms()
    ensures { QuadsHaveForms }
{}

/// Two forms with the same value at every point have the same coefficients, and so have two polynomials.
pub fn values_tell_coefficients()
    ensures { ValuesTellCoefficients }
{}
