//! Certificates.
ghost use Rattle.std.specs.Prelude.{◌≡◌, ℕ, List, Some};
ghost use Rattle.emp_cert.specs.Certs.{Counts, LinksFit, VerdictFits, VerdictFits-prop};

use crate::tree::Tree;
use emp_list::seq::Seq;
use emp_rows::point::RowPoint;

/// What a certificate says of a row system.
#[derive(Drop)]
pub enum Verdict {
    /// The point is one of the system, which has no objective.
    Point(RowPoint),
    /// The system has no point, by the tree.
    Missing(Tree),
    /// The point is one of the system, and by the tree none has a lower objective.
    Best(RowPoint, Tree),
    /// The point is one of the system, and so is each point at whole multiples of the step from it, with an objective that
    /// falls from each to the next.
    Unbounded(RowPoint, RowPoint),
}

/// The counts of base variables, quantities and pairs of a system, its pairs where the certificate names them, and a verdict.
///
/// The type keeps that all numbers are in their ranges and all lists as long as the counts say (`specs/Certs.antt`).
#[derive(Drop)]
pub struct Cert {
    /// How many base variables the system has, at most 256.
    pub base: u32,
    /// How many quantities, at most 512.
    pub quantities: u32,
    /// How many pairs, at most 256.
    pub pairs: u32,
    /// The numbers of each pair's members, first member first. `None` exactly for certificates of version 1.
    pub links: Option<Seq<(u32, u32)>>,
    pub verdict: Verdict,
    pub ghost counts: { Counts base quantities pairs },
    pub ghost linked: { (ps : List (ℕ × ℕ)) → links ≡ Some ps → LinksFit quantities pairs ps },
    pub ghost fits: { VerdictFits base quantities pairs verdict } by { VerdictFits-prop base quantities pairs verdict },
}

/// What a search found, and the units of work and the nodes that it took.
#[derive(Drop)]
pub struct Found {
    pub cert: Cert,
    pub work: u64,
    pub nodes: u64,
}
