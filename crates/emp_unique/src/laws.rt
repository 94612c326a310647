//! The laws of what a file determines, stated for the layers above.
ghost use Rattle.emp_unique.specs.Laws.{OnePolynomial, OneProblem, OneTest, OneSystem, OneState, StatedHasNoFault};

/// A form is that of one polynomial.
pub fn one_polynomial()
    ensures { OnePolynomial }
{}

/// A file of the class has one problem.
pub fn one_problem()
    ensures { OneProblem }
{}

/// The test of a problem's agents has one answer, memory aside.
pub fn one_test()
    ensures { OneTest }
{}

/// The rows of a problem have one answer, memory aside: one row system, or one fault.
pub fn one_system()
    ensures { OneSystem }
{}

/// A file has one problem and one row system.
pub fn one_state()
    ensures { OneState }
{}

/// A file that has a row system has no fault.
pub fn stated_has_no_fault()
    ensures { StatedHasNoFault }
{}
