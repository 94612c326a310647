//! The open branches on the way to a node.
ghost use Rattle.std.specs.Prelude.{◌≡◌, ◌<◌, ◌≤◌, [], ◌∷◌, length, slice_index_or};

use emp_cert::tree::Turn;
use std::marker::Model;

/// At most 256 open branches, seen as a list with the nearest first.
#[derive(Drop)]
pub struct Trail {
    open: [Turn; 256],
    depth: usize,
}

impl Model for Trail {
    ghost use Rattle.std.specs.Prelude.{List, take, reverse, ◌≤◌};
    ghost use Rattle.emp_cert.specs.declared.tree.Turn.{Turn};

    ghost Value = { List Turn };

    ghost view = { λ t. reverse (take t.depth t.open) };

    ghost invariant = { λ t. t.depth ≤ 256 };
}

#[tactic(auto, using(crate::proofs::Trails::stacking))]
impl Trail {
    /// No turns.
    pub fn new() -> Self
        ensures { result ≡ [] }
    {
        Trail {
            open: [Turn {
                pair: 0,
                second: false,
            }; 256],
            depth: 0,
        }
    }

    /// The number of turns on the trail, at most 256.
    pub fn len(&self) -> usize
        ensures { result ≡ length self.now }
    {
        self.open[..self.depth].len()
    }

    /// Adds the nearest turn; the caller knows that fewer than 256 are there.
    pub fn push(&mut self, turn: Turn)
        requires { length self.old < 256 }
        ensures { self.new ≡ turn ∷ self.old }
    {
        self.open[self.depth] = turn;
        self.depth += 1;
    }

    /// Takes the nearest turn; the caller knows that there is one.
    pub fn pop(&mut self) -> Turn
        requires { 0 < length self.old }
        ensures nearest { self.old ≡ result ∷ self.new }
        ensures room { length self.new < 256 }
    {
        self.depth -= 1;
        self.open[self.depth]
    }

    /// The branch that is so many places from the nearest.
    pub fn get(&self, at: usize) -> Turn
        requires { at < length self.now }
        ensures { result ≡ slice_index_or self.now at result }
    {
        self.open[self.depth - 1 - at]
    }
}
