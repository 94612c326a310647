//! The laws of polynomials of some variables, stated for the layers above.
ghost use Rattle.emp_left.specs.Left.{LinearLeft, QuadraticLeft};

/// A polynomial of degree 1 is a row of the variables that it names.
pub fn linear_left()
    ensures { LinearLeft }
{}

/// A polynomial is a quadratic of the variables that it names.
pub fn quadratic_left()
    ensures { QuadraticLeft }
{}
