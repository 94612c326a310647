//! The laws of the elimination.
ghost use Rattle.std.specs.Prelude.{ℕ, List, Result, Bool};
ghost use Rattle.emp_num.specs.declared.frac.Frac.{Frac};
ghost use Rattle.emp_ldl.specs.Whole.{RowsDecide};
ghost use Rattle.emp_ldl.specs.Form.{IsMatrix, entries};
ghost use Rattle.emp_ldl.specs.Laws.{FoldDecides, SemidefiniteIsWhole};
ghost use Rattle.emp_ldl.specs.Midpoint.{ConvexIsSemidefinite, TangentIsBelow};
ghost use Rattle.emp_ldl.specs.Convex.{ConvexGives, SameEnd};
ghost use Rattle.emp_ldl.specs.Shown.{part, parts, Shows, SquaresShow, ConvexSays};
ghost use Rattle.emp_ldl.specs.Check.{CheckGives, CheckSays, SameCheck};
ghost use Rattle.emp_num.specs.declared.exact.Wide.{Wide};
ghost use Rattle.emp_ldl.specs.declared.squares.Squares.{Squares};
ghost use Rattle.emp_ldl.specs.declared.squares.Curve.{Curve};

/// The elimination of whole rows decides, block by block, whether the form is at least 0.
pub fn rows_decide()
    ensures { RowsDecide }
{}

/// So does the elimination in fractions, and its pivots and residuals are squares that sum to the form.
pub fn fold_decides()
    ensures { (side : ℕ) (cells : List Frac) → IsMatrix side cells → FoldDecides side cells }
{}

/// What the answer of `convex` says of the matrix.
pub fn convex_says()
    ensures { (side : ℕ) (cells : List Frac) → IsMatrix side cells → (r : Result Squares Curve) → ConvexGives (entries side cells) side r → ConvexSays side cells r }
{}

/// Squares that sum to the form of a matrix show that it is positive semidefinite.
pub fn squares_show()
    ensures { (side : ℕ) (cells pivots residuals : List Frac) → IsMatrix side cells → Shows (entries side cells) (parts pivots residuals) side → SquaresShow side cells pivots residuals }
{}

/// What the answer of `check_squares` says. What `convex` gives shows the matrix, so it is answered true, or wide.
pub fn check_says()
    ensures { (side : ℕ) (cells pivots residuals : List Frac) → IsMatrix side cells → (b : Result Bool Wide) → CheckGives (entries side cells) (part pivots residuals) side b → CheckSays side cells pivots residuals b }
{}

/// A quadratic is convex by midpoints in its first variables exactly where the leading block of its second derivatives is
/// positive semidefinite.
pub fn convex_is_semidefinite()
    ensures { ConvexIsSemidefinite }
{}

/// The ends of a fold exclude each other: it has one answer, memory aside.
pub fn one_end()
    ensures { (side : ℕ) (cells : List Frac) → IsMatrix side cells → (s t : Result Squares Curve) → ConvexGives (entries side cells) side s → ConvexGives (entries side cells) side t → SameEnd s t }
{}

/// A quadratic at P + v is its value and slope at P and the quadratic part of v, which is at least 0 where it is convex.
pub fn tangent_is_below()
    ensures { TangentIsBelow }
{}

/// The form is at least 0 at all rational vectors exactly where that of the whole cells is at all whole vectors.
pub fn semidefinite_is_whole()
    ensures { (side : ℕ) (cells : List Frac) → SemidefiniteIsWhole side cells }
{}

/// The answers of the test of squares exclude each other.
pub fn one_check()
    ensures { (side : ℕ) (cells pivots residuals : List Frac) (a b : Result Bool Wide) → CheckGives (entries side cells) (part pivots residuals) side a → CheckGives (entries side cells) (part pivots residuals) side b → SameCheck a b }
{}
