//! The nodes that wait, and the piece that comes next.
ghost use Rattle.std.specs.Prelude.{◌<◌, ◌≤◌, length, IfOk};
ghost use Rattle.emp_dict.specs.Dicts.{dictionary_of};
ghost use Rattle.emp_walk.specs.Fits.{IsAt};
ghost use Rattle.emp_pieces.specs.Walks.{IsChild};

use crate::settled::first_open;
use emp_decide::point::point_of;
use emp_face::budget::Budget;
use emp_list::memory::NoMemory;
use emp_list::seq::Seq;
use emp_rows::point::RowPoint;
use emp_rows::system::RowSystem;
use emp_step::outcome::{Outcome, StepFault};
use emp_walk::asks::{Asks, ask_each};
use emp_walk::fault::WalkFault;
use emp_walk::kept::{Kept, Steps};
use std::alloc::Global;

/// A node that waits to be opened: the dictionary that its parent ended with, what it asks, and the numbers of the quantities of its path.
#[derive(Drop)]
pub struct Unopened {
    pub dict: Kept,
    pub asks: Asks,
    pub path: Seq<u32>,
}

/// A piece: the numbers of the quantities of its path, and the point of the dictionary that its node ended with.
#[derive(Drop)]
pub struct Piece {
    pub path: Seq<u32>,
    pub point: RowPoint,
}

/// Where a walk stands.
#[derive(Drop)]
pub struct Walk {
    /// The nodes that wait, the next one last.
    pub waiting: Seq<Unopened>,
    /// How many nodes were opened.
    pub nodes: u64,
    pub budget: Budget,
}

/// The child of a node at a quantity.
fn child(alloc: Global, dict: Kept, path: &Seq<u32>, k: u32) -> Result<Unopened, NoMemory>
    ensures { IfOk result (IsChild (dictionary_of dict) path.now k) }
{
    let mut path = path.copy(alloc)?;
    path.push(k)?;
    Ok(Unopened {
        dict,
        asks: Asks::Child(k),
        path,
    })
}

impl Walk {
    ghost use Rattle.emp_pieces.specs.Walks.{IsFirst, IsSplit, NextGives, OpenGives, SettleGives, TurnGives, UnopenedFits, WalkFits};

    /// The walk of a system before its root is opened.
    pub fn start(alloc: Global, system: &RowSystem, limit: u64) -> Result<Walk, NoMemory>
        ensures { IfOk result (IsFirst system.now limit) }
    {
        let root = Unopened {
            dict: Kept::start(alloc, system)?,
            asks: Asks::Root,
            path: Seq::new(alloc),
        };
        let mut waiting = Seq::new(alloc);
        waiting.push(root)?;
        Ok(Walk {
            waiting,
            nodes: 0,
            budget: Budget::new(limit),
        })
    }

    /// Takes a unit of work, and does what the node asks.
    fn open<S: Steps>(
        &mut self,
        steps: &mut S,
        system: &RowSystem,
        node: &mut Unopened,
    ) -> Result<Outcome, WalkFault>
        requires waits { UnopenedFits system.now node.old }
        requires fits { WalkFits system.now self.old }
        ensures { OpenGives system.now self.old node.old self.new node.new result }
    {
        let Ok(()) = self.budget.take() else {
            return Err(WalkFault::Spent(self.budget.limit));
        };
        prove!(self.nodes < self.budget.used);
        self.nodes += 1;
        match ask_each(steps, system, &mut node.dict, node.asks, &mut self.budget) {
            Ok(outcome) => Ok(outcome),
            Err(StepFault::Wide) => {
                Err(WalkFault::Wide(self.nodes, self.budget.used - self.nodes))
            }
            Err(StepFault::Spent) => Err(WalkFault::Spent(self.budget.limit)),
        }
    }

    /// Splits a pair at a node: the child of its first member is next, and then that of the second.
    fn split(
        &mut self,
        alloc: Global,
        system: &RowSystem,
        node: Unopened,
        k: u32,
    ) -> Result<(), NoMemory>
        requires { (0 < k) × (k ≤ length system.now.pairs) }
        ensures { IfOk result (λ u. IsSplit system.now node k self.old self.new) }
    {
        let (first, second) = system.pairs.as_slice()[k as usize - 1];
        let dict = node.dict.copy(alloc)?;
        let later = child(alloc, dict, &node.path, second)?;
        let next = child(alloc, node.dict, &node.path, first)?;
        self.waiting.push(later)?;
        self.waiting.push(next)?;
        Ok(())
    }

    /// What comes of a node that holds: a piece, or the split of its first pair that is open.
    fn settle(
        &mut self,
        alloc: Global,
        system: &RowSystem,
        node: Unopened,
    ) -> Result<Option<Piece>, NoMemory>
        requires at { IsAt system.now (dictionary_of node.dict) }
        requires fits { WalkFits system.now self.old }
        ensures { IfOk result (SettleGives system.now node self.old self.new) }
    {
        match first_open(system, node.dict.dictionary()) {
            Some(k) => {
                self.split(alloc, system, node, k)?;
                Ok(None)
            }
            None => {
                let point = point_of(alloc, node.dict.dictionary())?;
                Ok(Some(Piece {
                    path: node.path,
                    point,
                }))
            }
        }
    }

    /// Opens a node, and does what comes next. `None` where it is no piece.
    fn turn<S: Steps>(
        &mut self,
        steps: &mut S,
        alloc: Global,
        system: &RowSystem,
        node: Unopened,
    ) -> Result<Option<Piece>, WalkFault>
        requires waits { UnopenedFits system.now node }
        requires fits { WalkFits system.now self.old }
        ensures { TurnGives system.now node self.old self.new result }
    {
        let mut node = node;
        let outcome = match self.open(steps, system, &mut node) {
            Ok(outcome) => outcome,
            Err(fault) => return Err(fault),
        };
        match outcome {
            Outcome::Held => match self.settle(alloc, system, node) {
                Ok(piece) => Ok(piece),
                Err(NoMemory) => Err(WalkFault::NoMemory),
            },
            Outcome::Empty(_) => Ok(None),
            Outcome::Best(_) => Ok(None),
            Outcome::Ray(_, _) => Ok(None),
        }
    }

    /// The piece that comes next, `None` where no node is left. The walk may be gone on with after a piece, also on a budget of which others took
    /// units.
    ///
    /// `Wide` exactly where a pivot forms a number with absolute value 2^126 or more before the next piece comes, `Spent` exactly where it asks for
    /// more units. Want of memory is free.
    pub fn next<S: Steps>(
        &mut self,
        steps: &mut S,
        alloc: Global,
        system: &RowSystem,
    ) -> Result<Option<Piece>, WalkFault>
        requires { WalkFits system.now self.old }
        ensures { NextGives system.now self.old self.new result }
    {
        while let Some(node) = self.waiting.pop() {
            match self.turn(steps, alloc, system, node) {
                Ok(Some(piece)) => return Ok(Some(piece)),
                Ok(None) => {}
                Err(fault) => return Err(fault),
            }
        }
        Ok(None)
    }
}
