//! The polynomial of a tree.
ghost use Rattle.std.specs.Prelude.{◌≡◌, IfOk};
ghost use Rattle.emp_num.specs.Point.{Point};
ghost use Rattle.emp_poly.specs.Trees.{FromTreeGives, HasTreeValue};

use crate::collect::collected;
use crate::quad::Quad;
use emp_ast::tree::{Place, Tree};
use emp_expand::expand::{ExpandFault, expanded};
use emp_expand::products::NodeFault;
use std::alloc::Global;

/// Why a tree has no polynomial: the first node in postorder that has a fault, by its place, and at that node the first of
/// these. `Degree`: the result would have a degree above 2. `DivideByVariable`: the divisor is not constant. `DivideByZero`:
/// the divisor is 0. `Wide`: a call on coefficients is wide, or a coefficient has a numerator or denominator of absolute value
/// 2^62 or more. What decides the first three is unbounded (`specs/Expansion.antt` of `emp_form`); `Wide` is in
/// `specs/Wide.antt` there.
#[derive(Clone, Copy, Debug, PartialEq, Eq)]
pub enum PolyFault {
    Degree(Place),
    DivideByVariable(Place),
    DivideByZero(Place),
    Wide(Place),
    NoMemory,
}

ghost use Rattle.emp_poly.specs.Trees.{IsFaultAt};

/// The fault of a node at its place.
fn fault_at(fault: NodeFault, place: Place) -> PolyFault
    ensures { IsFaultAt fault place result }
{
    match fault {
        NodeFault::NoMemory => PolyFault::NoMemory,
        NodeFault::Degree => PolyFault::Degree(place),
        NodeFault::DivideByVariable => PolyFault::DivideByVariable(place),
        NodeFault::DivideByZero => PolyFault::DivideByZero(place),
        NodeFault::Wide => PolyFault::Wide(place),
    }
}

/// The polynomial of a tree: it has the tree's value at every point.
pub fn from_tree(alloc: Global, tree: &Tree) -> Result<Quad, PolyFault>
    ensures cause { FromTreeGives tree.now result }
    ensures value { IfOk result (λ q. (p : Point) → HasTreeValue tree.now q p) }
{
    match expanded(alloc, tree.nodes.as_slice()) {
        Ok(all) => {
            let Ok(quad) = collected(alloc, &all) else {
                return Err(PolyFault::NoMemory);
            };
            Ok(quad)
        }
        Err(stop) => Err(fault_at(stop.fault, *tree.places.get(stop.at))),
    }
}
