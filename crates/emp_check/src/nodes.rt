//! The checker: one pass over the nodes, with the open branches in an array.
ghost use Rattle.std.specs.Prelude.{◌≡◌, ◌+◌, ◌<◌, ◌≤◌, ◌<ℤ◌, ◌*ℤ◌, ◌-ℤ◌, ◌∷◌, [], ℕ, ℤ, pos, length, Some, None, not};
ghost use Rattle.std.specs.List.{All};
ghost use Rattle.std.specs.Result.{result_ok};
ghost use Rattle.emp_num.specs.Exact.{IsNarrow};
ghost use Rattle.emp_num.specs.Ratio.{ratio};
ghost use Rattle.emp_check.specs.Levels.{level_of};
ghost use Rattle.emp_check.specs.Paths.{advance};
ghost use Rattle.emp_cert.specs.Paths.{is_split};
ghost use Rattle.emp_check.specs.Steps.{Advances, IsPath, PathFits, RoomFor};
ghost use Rattle.emp_check.specs.Tests.{bound_test, farkas_test, least_test};
ghost use Rattle.emp_rows.specs.Values.{is_negative};
ghost use Rattle.emp_cert.specs.Certs.{NodeFits};
ghost use Rattle.emp_check.specs.Trees.{next, node_test, nodes_test};

use crate::leaf::{columns_test, factors_test, leaf_sum, negative_test};
use crate::outcome::{Checked, Named, Tested, Why};
use crate::trail::Trail;
use emp_cert::tree::{Node, Turn};
use emp_num::exact::{Wide, product};
use emp_num::frac::Frac;
use emp_rows::system::RowSystem;

/// Goes on with the second child of the nearest branch whose first child was read; false where there is none.
#[tactic(auto, using(crate::proofs::Trails::walking))]
fn advance(trail: &mut Trail) -> bool
    ensures { Advances (advance trail.old) result trail.new }
{
    while trail.len() > 0 {
        let turn = trail.pop();
        if !turn.second {
            trail.push(Turn {
                pair: turn.pair,
                second: true,
            });
            return true;
        }
    }
    false
}

/// Goes on to the node after this one; false where there is none.
fn next(trail: &mut Trail, node: &Node) -> bool
    requires { RoomFor trail.old node.now }
    ensures { Advances (next trail.old node.now) result trail.new }
{
    match node {
        Node::Branch(pair) => {
            trail.push(Turn {
                pair: *pair,
                second: false,
            });
            true
        }
        Node::Farkas(_) => advance(trail),
        Node::Bound(_, _) => advance(trail),
    }
}

/// Whether the pair is split on the path.
#[tactic(auto, using(crate::proofs::Trails::walking))]
fn is_split(trail: &Trail, pair: u32) -> bool
    ensures { result ≡ is_split trail.now pair }
{
    for at in 0..trail.len() {
        if pair == trail.get(at).pair {
            return true;
        }
    }
    false
}

/// The test of a leaf that is to refute.
#[tactic(auto, using(crate::proofs::Steps::columning))]
fn farkas_test(system: &RowSystem, trail: &Trail, factors: &[i128]) -> Tested
    requires path { PathFits system.now trail.now }
    requires factors { length factors.now ≡ length system.now.quantities }
    ensures { result ≡ farkas_test system.now trail.now factors.now }
{
    let tested = factors_test(system, trail, factors);
    if tested != Tested::Fine {
        return tested;
    }
    let tested = columns_test(system, None, factors);
    if tested != Tested::Fine {
        return tested;
    }
    negative_test(leaf_sum(system, None, factors, None))
}

/// Whether the constant is below `top` over `bottom`, with no product formed.
#[tactic(auto, using(crate::proofs::Steps::dividing))]
fn misses(constant: i128, top: i128, bottom: i128) -> bool
    requires { pos 0 <ℤ bottom }
    ensures { result ≡ is_negative (constant *ℤ bottom -ℤ top) }
{
    let whole = top / bottom;
    if whole < constant {
        return false;
    }
    if constant < whole {
        return true;
    }
    if top % bottom > 0 { true } else { false }
}

/// Whether the constant is at least the weight times the value.
#[tactic(auto, using(crate::proofs::Steps::stepping))]
fn least_test(weight: i128, value: Frac, sum: Result<i128, Wide>) -> Tested
    ensures { result ≡ least_test weight (ratio value.num value.den) (result_ok sum) }
{
    let Ok(constant) = sum else {
        return Tested::Wide;
    };
    let Ok(top) = product(weight, value.num) else {
        return Tested::Wide;
    };
    if misses(constant, top, value.den) {
        Tested::Wrong(Why::Constant)
    } else {
        Tested::Fine
    }
}

/// The test of a leaf that is to bound.
#[tactic(auto, using(crate::proofs::Steps::columning))]
fn bound_test(
    system: &RowSystem,
    best: Named,
    trail: &Trail,
    weight: i128,
    factors: &[i128],
) -> Tested
    requires path { PathFits system.now trail.now }
    requires factors { length factors.now ≡ length system.now.quantities }
    ensures { result ≡ bound_test system.now (level_of best) trail.now weight factors.now }
{
    let tested = factors_test(system, trail, factors);
    if tested != Tested::Fine {
        return tested;
    }
    if best == Named::Nothing {
        return Tested::Wrong(Why::Kind);
    }
    let tested = columns_test(system, Some(weight), factors);
    if tested != Tested::Fine {
        return tested;
    }
    match best {
        Named::Value(value) => {
            least_test(weight, value, leaf_sum(system, Some(weight), factors, None))
        }
        Named::Nothing => Tested::Wrong(Why::Kind),
        Named::TooWide => Tested::Wide,
    }
}

/// The test of a node.
fn node_test(system: &RowSystem, best: Named, trail: &Trail, node: &Node) -> Tested
    requires path { PathFits system.now trail.now }
    requires node { NodeFits (length system.now.pairs) (length system.now.quantities) node.now }
    ensures { result ≡ node_test system.now (level_of best) trail.now node.now }
{
    match node {
        Node::Branch(pair) => {
            if is_split(trail, *pair) {
                Tested::Wrong(Why::Split)
            } else {
                Tested::Fine
            }
        }
        Node::Farkas(factors) => farkas_test(system, trail, factors.as_slice()),
        Node::Bound(weight, factors) => {
            bound_test(system, best, trail, *weight, factors.as_slice())
        }
    }
}

/// Tests the nodes of a tree in order.
#[tactic(auto, using(crate::proofs::Walks::walking))]
pub fn check_nodes(system: &RowSystem, best: Named, nodes: &[Node]) -> Checked
    requires nodes { All (NodeFits (length system.now.pairs) (length system.now.quantities)) nodes.now }
    ensures { result ≡ nodes_test system.now (level_of best) 1 (Some []) nodes.now }
{
    let mut trail = Trail::new();
    for at in 0..nodes.len() {
        let node = &nodes[at];
        match node_test(system, best, &trail, node) {
            Tested::Fine => {}
            Tested::Wrong(why) => return Checked::Rejected(at as u64 + 1, why),
            Tested::Wide => return Checked::Wide(at as u64 + 1),
        }
        if !next(&mut trail, node) {
            return Checked::Accepted;
        }
    }
    Checked::Accepted
}
