//! One problem in the place of another.
ghost use Rattle.std.specs.Prelude.{◌≡◌, ◌↔◌, ℕ, Option};
ghost use Rattle.emp_num.specs.Point.{Point};
ghost use Rattle.emp_num.specs.SamePoint.{SamePoint};
ghost use Rattle.emp_reform.specs.Back.{FitsAt, BackGives};

use crate::fault::BackFault;
use crate::problem::Problem;
use std::alloc::Global;

/// A rewriting of one problem, the source, as another, the target.
///
/// Each point of the target stands for one of the source, its image. Solving points have solving images (`sound`), each
/// solving point of the source is the image of one (`lifts`), and images are better where their points are (`order`).
pub trait Reform {
    /// The problem that is rewritten.
    type Src: Problem;

    /// The problem in its place.
    type Dst: Problem;

    // the source
    ghost source: { Self → Self.Src };

    // the target
    ghost target_of: { Self → Self.Dst };

    // the source point that a target point stands for
    ghost image: { Self → Point → Point };

    // the first source coordinate whose fold is wide at the target point
    ghost wide: { Self → Point → Option ℕ };

    // what a value of this type keeps, for its laws to hold
    ghost whole: { Self → Type 0 };

    /// The target.
    fn target(&self) -> &Self::Dst
        ensures { result.now ≡ target_of self.now };

    /// The source point that stands for the image of the target point, which must fit the target.
    ///
    /// `Wide(k)` exactly where `wide` of the point is k, memory aside.
    fn back(
        &self,
        alloc: Global,
        point: &<Self::Dst as Problem>::Point,
    ) -> Result<<Self::Src as Problem>::Point, BackFault>
        requires whole { whole self.now }
        requires fits { FitsAt Self.Dst.stands (Self.Dst.fits (target_of self.now)) point.now }
        ensures { (p : Point) → Self.Dst.stands point.now p → BackGives Self.Src.stands (image self.now p) (wide self.now p) result };

    // the image of a point that fits the target fits the source
    ghost keeps: { (r : Self) (p : Point) → whole r → Self.Dst.fits (target_of r) p → Self.Src.fits (source r) (image r p) };

    // the image of a point that solves the target solves the source
    ghost sound: { (r : Self) (p : Point) → whole r → Self.Dst.solves (target_of r) p → Self.Src.solves (source r) (image r p) };

    // of two points that solve the target one is better exactly where its image is
    ghost order: { (r : Self) (p q : Point) → whole r → Self.Dst.solves (target_of r) p → Self.Dst.solves (target_of r) q → Self.Dst.better (target_of r) p q ↔ Self.Src.better (source r) (image r p) (image r q) };

    // the image of the same point is the same point
    ghost same: { (r : Self) (p q : Point) → whole r → Self.Dst.fits (target_of r) p → Self.Dst.fits (target_of r) q → SamePoint p q → SamePoint (image r p) (image r q) };

    // each point that solves the source is the image of a point that solves the target
    ghost lifts: { (r : Self) (q : Point) → whole r → Self.Src.solves (source r) q → (p : Point) × Self.Dst.solves (target_of r) p × SamePoint (image r p) q };
}
