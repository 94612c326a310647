//! The checker's call.
ghost use Rattle.std.specs.Prelude.{◌≡◌, ◌∷◌, [], length, false, Some};
ghost use Rattle.std.specs.List.{All};
ghost use Rattle.emp_rows.specs.Affine.{IsRow};
ghost use Rattle.emp_rows.specs.Values.{measured};
ghost use Rattle.emp_cert.specs.Certs.{NodeFits, VerdictFits};
ghost use Rattle.emp_cert.specs.Verdicts.{VerdictShown, VerdictHolds};
ghost use Rattle.emp_check.specs.declared.outcome.Checked.TheVariants.{Accepted};
ghost use Rattle.emp_check.specs.Checks.{LinksAre, SizesAre, links_fit, same_pairs, level_by, checked, verdict_checked, sizes_fit};
ghost use Rattle.emp_check.specs.Heads.{point_test, ray_test};
ghost use Rattle.emp_check.specs.Levels.{level_of};
ghost use Rattle.emp_check.specs.Tests.{and_then};
ghost use Rattle.emp_check.specs.Trees.{at_node, nodes_test};

use crate::head::{point_test, ray_test};
use crate::nodes::check_nodes;
use crate::outcome::{Checked, Named, Tested, Why};
use emp_cert::cert::{Cert, Verdict};
use emp_cert::tree::Node;
use emp_num::frac::Frac;
use emp_rows::affine::Affine;
use emp_rows::point::measured;
use emp_rows::system::RowSystem;

/// The answer where the head's test ends so.
fn at_head(tested: Tested, rest: Checked) -> Checked
    ensures { result ≡ at_node 0 tested rest }
{
    match tested {
        Tested::Fine => rest,
        Tested::Wrong(why) => Checked::Rejected(0, why),
        Tested::Wide => Checked::Wide(0),
    }
}

/// The objective's value at the point.
fn named(objective: &Affine, point: &[Frac]) -> Named
    requires objective { IsRow (length point.now) objective.now }
    ensures { level_of result ≡ level_by (measured false objective.now point.now) }
{
    match measured(false, objective, point) {
        Ok(value) => Named::Value(value),
        Err(_) => Named::TooWide,
    }
}

/// The test of a verdict with a point that is to be best.
fn best_test(system: &RowSystem, objective: &Affine, point: &[Frac], nodes: &[Node]) -> Checked
    requires objective { IsRow system.now.base objective.now }
    requires width { length point.now ≡ system.now.base }
    requires nodes { All (NodeFits (length system.now.pairs) (length system.now.quantities)) nodes.now }
    ensures { result ≡ at_node 0 (point_test system.now point.now) (nodes_test system.now (level_by (measured false objective.now point.now)) 1 (Some []) nodes.now) }
{
    match point_test(system, point) {
        Tested::Fine => check_nodes(system, named(objective, point), nodes),
        Tested::Wrong(why) => Checked::Rejected(0, why),
        Tested::Wide => Checked::Wide(0),
    }
}

/// The test of a verdict with a ray.
fn unbounded_test(system: &RowSystem, objective: &Affine, point: &[Frac], step: &[Frac]) -> Tested
    requires objective { IsRow system.now.base objective.now }
    requires width { length point.now ≡ system.now.base }
    requires step { length step.now ≡ system.now.base }
    ensures { result ≡ and_then (point_test system.now point.now) (ray_test system.now objective.now point.now step.now) }
{
    match point_test(system, point) {
        Tested::Fine => ray_test(system, objective, point, step),
        Tested::Wrong(why) => Tested::Wrong(why),
        Tested::Wide => Tested::Wide,
    }
}

/// Whether the counts are the system's.
fn sizes_test(system: &RowSystem, cert: &Cert) -> bool
    ensures { result ≡ sizes_fit system.now cert.now }
{
    cert.base == system.base
        && cert.quantities as usize == system.quantities.len()
        && cert.pairs as usize == system.pairs.len()
}

/// Whether the lists have the same pairs in order.
#[tactic(auto, using(crate::proofs::Links::linking))]
fn same_pairs(links: &[(u32, u32)], pairs: &[(u32, u32)]) -> bool
    requires { length links.now ≡ length pairs.now }
    ensures { result ≡ same_pairs links.now pairs.now }
{
    for at in 0..links.len() {
        let link = links[at];
        let pair = pairs[at];
        if link.0 != pair.0 || link.1 != pair.1 {
            return false;
        }
    }
    true
}

/// Whether the pairs that are named, where some are, are the system's.
fn links_fit(system: &RowSystem, cert: &Cert) -> bool
    requires { cert.now.pairs ≡ length system.now.pairs }
    ensures { result ≡ links_fit system.now cert.now.links }
{
    match &cert.links {
        Some(links) => same_pairs(links.as_slice(), system.pairs.as_slice()),
        None => true,
    }
}

/// The test of a verdict.
fn verdict_checked(system: &RowSystem, verdict: &Verdict) -> Checked
    requires verdict { VerdictFits system.now.base (length system.now.quantities) (length system.now.pairs) verdict.now }
    ensures { result ≡ verdict_checked system.now system.now.objective verdict.now }
{
    match verdict {
        Verdict::Point(point) => match &system.objective {
            None => at_head(point_test(system, point.as_slice()), Checked::Accepted),
            Some(_) => Checked::Rejected(0, Why::Kind),
        },
        Verdict::Missing(tree) => check_nodes(system, Named::Nothing, tree.nodes.as_slice()),
        Verdict::Best(point, tree) => match &system.objective {
            None => Checked::Rejected(0, Why::Kind),
            Some(objective) => {
                best_test(system, objective, point.as_slice(), tree.nodes.as_slice())
            }
        },
        Verdict::Unbounded(point, step) => match &system.objective {
            None => Checked::Rejected(0, Why::Kind),
            Some(objective) => at_head(
                unbounded_test(system, objective, point.as_slice(), step.as_slice()),
                Checked::Accepted,
            ),
        },
    }
}

/// Tests a certificate of a row system in the written order (`checked` of `specs/Checks.antt`), with no memory and no
/// recursion.
///
/// `Accepted` only where the certificate's counts and pairs are the system's, its rows decide, and its verdict holds.
/// `Rejected` is the first test that fails, with its node, and `Wide` the first that is not decided because a number formed
/// in it has an absolute value of 2^126 or more.
pub fn check(system: &RowSystem, cert: &Cert) -> Checked
    ensures exact { result ≡ checked system.now cert.now }
    ensures sized { result ≡ Accepted → SizesAre system.now cert.now }
    ensures linked { result ≡ Accepted → LinksAre system.now cert.now.links }
    ensures shown { result ≡ Accepted → VerdictShown system.now cert.now.verdict }
    ensures sound { result ≡ Accepted → VerdictHolds system.now cert.now.verdict }
{
    if !sizes_test(system, cert) {
        return Checked::Rejected(0, Why::Sizes);
    }
    if !links_fit(system, cert) {
        return Checked::Rejected(0, Why::Pairs);
    }
    verdict_checked(system, &cert.verdict)
}
