//! The laws of curvature, stated for the layers above.
ghost use Rattle.emp_curvature.specs.Curvature.{CurvatureIsConvex, ConvexTells};

/// A quadratic is convex in the first coordinates of a list exactly where the block of its second derivatives is positive
/// semidefinite.
pub fn curvature_is_convex()
    ensures { CurvatureIsConvex }
{}

/// What the test of convexity on the second derivatives says of the quadratic.
pub fn convex_tells()
    ensures { ConvexTells }
{}
