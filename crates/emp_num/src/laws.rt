//! The laws of fractions, stated for the layers above.
ghost use Rattle.emp_num.specs.FracLaws.{OrderIsTotal, EqualAreSame, SignsOfQuotients, SignsOfResults};
ghost use Rattle.emp_num.specs.SamePoint.{SameIsEquivalence, StandsForSame, LowestAreFractions, SamePointExamples};

/// The order is total, and a comparison has one answer.
pub fn order_is_total()
    ensures { OrderIsTotal }
{}

/// Fractions that are equal as numbers are one value.
pub fn equal_are_same()
    ensures { EqualAreSame }
{}

/// A fraction has the sign of each quotient that it is.
pub fn signs_of_quotients()
    ensures { SignsOfQuotients }
{}

/// Sums and products of fractions that are not below 0 are not below 0.
pub fn signs_of_results()
    ensures { SignsOfResults }
{}

/// Points with equal coordinates: each is the same as itself, both ways, and on.
pub fn same_is_equivalence()
    ensures { SameIsEquivalence }
{}

/// A list of fractions stands for the points with its coordinates, and for no others, and no other list does.
pub fn stands_for_same()
    ensures { StandsForSame }
{}

/// The numbers of the fractions that stand for a point are its coordinates in lowest terms.
pub fn lowest_are_fractions()
    ensures { LowestAreFractions }
{}

/// Points that are the same and points that are not, on examples.
pub fn same_point_examples()
    ensures { SamePointExamples }
{}
