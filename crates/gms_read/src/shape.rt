//! Which arguments a function has.
ghost use Rattle.std.specs.Prelude.{◌≡◌, ◌<◌, ◌+◌, ◌^◌};
ghost use Rattle.gms_read.specs.declared.shape.Shape.TheVariants.{One};
ghost use Rattle.gms_read.specs.Rules.{exponent};
ghost use Rattle.gms_read.specs.Shapes.{closes, depth_behind, shape_behind, shape_from, accepts};

use emp_num::frac::Frac;
use gms_grammar::item::Item;
use gms_grammar::lexeme::{Sort, Word};

/// The arguments of a function as far as they are seen.
#[derive(Clone, Copy, Debug)]
pub enum Shape {
    /// One argument.
    One,
    /// One argument, and a comma.
    Awaiting,
    /// One argument, and an exponent.
    Powered,
    /// Other arguments.
    Other,
}

/// The value, if it is whole from 0 to 9.
#[tactic(auto, using(crate::proofs::Arguments::exponents))]
pub fn exponent(value: Frac) -> Option<u8>
    ensures { result ≡ exponent value }
{
    let n = value.num();
    if value.den() == 1 && 0 <= n && n <= 9 {
        Some(n as u8)
    } else {
        None
    }
}

fn closes(depth: usize, item: Item) -> bool
    ensures { result ≡ closes depth item }
{
    match item {
        Item::Applies(_) => depth == 0,
        _ => false,
    }
}

fn depth_behind(depth: usize, item: Item) -> usize
    requires { depth + 1 < 2 ^ 64 }
    ensures { result ≡ depth_behind depth item }
{
    match item {
        Item::Enters(_) => depth + 1,
        Item::Applies(_) => depth.saturating_sub(1),
        _ => depth,
    }
}

fn shape_behind(shape: Shape, item: Item) -> Shape
    ensures { result ≡ shape_behind shape item }
{
    match (shape, item) {
        (Shape::One, Item::Lists) => Shape::Awaiting,
        (Shape::One, _) => Shape::One,
        (Shape::Awaiting, Item::Number(_, value)) => {
            if exponent(value).is_some() {
                Shape::Powered
            } else {
                Shape::Other
            }
        }
        _ => Shape::Other,
    }
}

/// The shape of the arguments with which the items begin.
#[tactic(auto, using(crate::proofs::Arguments::shaping))]
pub fn arguments_shape(items: &[Item]) -> Shape
    ensures { result ≡ shape_from 0 One items.now }
{
    let mut depth = 0;
    let mut shape = Shape::One;
    for item in items {
        if closes(depth, *item) {
            return shape;
        }
        if depth == 0 {
            shape = shape_behind(shape, *item);
        }
        depth = depth_behind(depth, *item);
    }
    Shape::Other
}

/// Whether the name with that sort is a function of such arguments.
pub fn accepts(sort: Sort, shape: Shape) -> bool
    ensures { result ≡ accepts sort shape }
{
    match (sort, shape) {
        (Sort::Name(Word::Square), Shape::One) => true,
        (Sort::Name(Word::Power), Shape::Powered) => true,
        _ => false,
    }
}
