//! The course of a search: the node that is next, the open branches, what is written, the incumbent and the budget.
ghost use Rattle.std.specs.Prelude.{◌≡◌, ◌<◌, ◌≤◌, length, IfOk};
ghost use Rattle.std.specs.Option.{option_map};
ghost use Rattle.emp_dict.specs.Dicts.{dictionary_of};
ghost use Rattle.emp_cert.specs.declared.tree.Node.TheVariants.{Farkas};
ghost use Rattle.emp_decide.specs.Reads.{farkas_factors};
ghost use Rattle.emp_search.specs.Search.{bound_of};
ghost use Rattle.emp_walk.specs.Fits.{IsAt};

use crate::asks::{Asks, work};
use crate::fault::WalkFault;
use crate::kept::{Kept, Steps};
use crate::next::{Next, decide};
use emp_cert::tree::Node;
use emp_decide::row::{bound_row, farkas_row};
use emp_face::budget::Budget;
use emp_list::memory::NoMemory;
use emp_list::seq::Seq;
use emp_rows::system::RowSystem;
use emp_step::outcome::{Outcome, StepFault};
use std::alloc::Global;

/// A branch whose first child is not done: the dictionary that its node ended with, and what its second child asks.
#[derive(Drop)]
pub struct Open {
    pub dict: Kept,
    /// The number of the quantity that is the pair's second member.
    pub second: u32,
}

/// How a search ends.
#[derive(Clone, Copy, Debug, PartialEq, Eq)]
pub enum End {
    /// No node is left.
    Closed,
    /// The node's point is a row point.
    Point,
    /// The objective falls without end along this column, up where the flag says so.
    Ray(usize, bool),
}

/// Where a search stands before a node is opened.
#[derive(Drop)]
pub struct Course {
    /// The dictionary of the node that is next, as its parent left it.
    pub dict: Kept,
    /// What it is asked.
    pub asks: Asks,
    /// The open branches above it, the nearest last.
    pub stack: Seq<Open>,
    /// The dictionary of the best point so far.
    pub best: Option<Kept>,
    /// The nodes of the tree so far, in preorder.
    pub written: Seq<Node>,
    /// How many nodes were opened.
    pub nodes: u64,
    pub budget: Budget,
}

impl Course {
    ghost use Rattle.emp_walk.specs.Courses.{CloseGives, CourseFits, EndFits, FaultGives, Goes, IsKept, IsSplit, IsStartFrom, LeafFits, OpenGives, PlaceFits, TurnGives, closed_at, decided_at, pending, wrote};
    ghost use Rattle.emp_walk.specs.Decisions.{NextFits, decision_of};

    /// The course of a search before its root is opened, on a budget of which others may have taken units, after so many nodes.
    pub fn start(
        alloc: Global,
        system: &RowSystem,
        budget: Budget,
        nodes: u64,
    ) -> Result<Course, NoMemory>
        requires { nodes ≤ budget.used }
        ensures { IfOk result (IsStartFrom system.now budget.limit budget.used nodes) }
    {
        Ok(Course {
            dict: Kept::start(alloc, system)?,
            asks: Asks::Root,
            stack: Seq::new(alloc),
            best: None,
            written: Seq::new(alloc),
            nodes,
            budget,
        })
    }

    /// Takes a unit of work, and does the work of the node.
    fn open<S: Steps>(&mut self, steps: &mut S, system: &RowSystem) -> Result<Outcome, WalkFault>
        requires { CourseFits system.now self.old }
        ensures { OpenGives system.now self.old self.new result }
    {
        let Ok(()) = self.budget.take() else {
            return Err(WalkFault::Spent(self.budget.limit));
        };
        prove!(self.nodes < self.budget.used);
        self.nodes += 1;
        match work(steps, system, &mut self.dict, self.asks, &mut self.budget) {
            Ok(outcome) => Ok(outcome),
            Err(StepFault::Wide) => {
                Err(WalkFault::Wide(self.nodes, self.budget.used - self.nodes))
            }
            Err(StepFault::Spent) => Err(WalkFault::Spent(self.budget.limit)),
        }
    }

    /// Goes on with the second child of the nearest open branch. Where there is none the search ends.
    fn close(&mut self) -> Option<End>
        ensures { CloseGives self.old self.new result }
    {
        match self.stack.pop() {
            Some(open) => {
                self.dict = open.dict;
                self.asks = Asks::Child(open.second);
                None
            }
            None => Some(End::Closed),
        }
    }

    /// Writes a leaf with the Farkas row of a row.
    fn write_farkas(&mut self, alloc: Global, row: usize) -> Result<(), NoMemory>
        requires { row < length (dictionary_of self.old.dict).rows }
        ensures wrote { IfOk result (λ u. self.new ≡ wrote self.old (Farkas (farkas_factors (dictionary_of self.old.dict) row))) }
        ensures fits { IfOk result (λ u. LeafFits (dictionary_of self.old.dict) (Farkas (farkas_factors (dictionary_of self.old.dict) row))) }
    {
        let factors = farkas_row(alloc, self.dict.dictionary(), row)?;
        self.written.push(Node::Farkas(factors))?;
        Ok(())
    }

    /// Writes a leaf with the Bound row of a row.
    fn write_bound(&mut self, alloc: Global, row: usize) -> Result<(), NoMemory>
        requires { row < length (dictionary_of self.old.dict).rows }
        ensures wrote { IfOk result (λ u. self.new ≡ wrote self.old (bound_of (dictionary_of self.old.dict) row)) }
        ensures fits { IfOk result (λ u. LeafFits (dictionary_of self.old.dict) (bound_of (dictionary_of self.old.dict) row)) }
    {
        let factors = bound_row(alloc, self.dict.dictionary(), row)?;
        self.written
            .push(Node::Bound(self.dict.dictionary().denom(row), factors))?;
        Ok(())
    }

    /// Keeps the node's dictionary as that of the best point so far.
    fn keep_best(&mut self, alloc: Global) -> Result<(), NoMemory>
        ensures { IfOk result (λ u. IsKept self.old self.new) }
    {
        self.best = Some(self.dict.copy(alloc)?);
        Ok(())
    }

    /// Splits a pair: its second child is kept open, and its first child is next.
    fn split(&mut self, alloc: Global, system: &RowSystem, k: u32) -> Result<(), NoMemory>
        requires { (0 < k) × (k ≤ length system.now.pairs) }
        ensures { IfOk result (λ u. IsSplit system.now k self.old self.new) }
    {
        let (first, second) = system.pairs.as_slice()[k as usize - 1];
        let dict = self.dict.copy(alloc)?;
        self.stack.push(Open { dict, second })?;
        self.written.push(Node::Branch(k))?;
        self.asks = Asks::Child(first);
        Ok(())
    }

    /// Does what comes next after the work of the node.
    fn settle(
        &mut self,
        alloc: Global,
        system: &RowSystem,
        next: Next,
    ) -> Result<Option<End>, NoMemory>
        requires done { IsAt system.now (dictionary_of self.old.dict) }
        requires place { PlaceFits system.now self.old }
        requires next { NextFits system.now (dictionary_of self.old.dict) next }
        ensures goes { IfOk result (Goes system.now (decided_at system.now self.old (decision_of (option_map dictionary_of self.old.best) (dictionary_of self.old.dict) next)) self.new) }
        ensures budget { IfOk result (λ e. self.new.budget ≡ self.old.budget) }
    {
        match next {
            Next::Refuted(row) => {
                self.write_farkas(alloc, row)?;
                Ok(self.close())
            }
            Next::Bounded(row) => {
                self.write_bound(alloc, row)?;
                Ok(self.close())
            }
            Next::Better(row) => {
                self.write_bound(alloc, row)?;
                self.keep_best(alloc)?;
                Ok(self.close())
            }
            Next::Split(k) => {
                self.split(alloc, system, k)?;
                Ok(None)
            }
            Next::Point => Ok(Some(End::Point)),
            Next::Ray(column, up) => Ok(Some(End::Ray(column, up))),
        }
    }

    /// Opens a node, and does what comes next.
    pub fn turn<S: Steps>(
        &mut self,
        steps: &mut S,
        alloc: Global,
        system: &RowSystem,
    ) -> Result<Option<End>, WalkFault>
        requires { CourseFits system.now self.old }
        ensures { TurnGives system.now self.old self.new result }
    {
        let outcome = self.open(steps, system)?;
        let next = decide(system, &self.best, self.dict.dictionary(), outcome);
        match self.settle(alloc, system, next) {
            Ok(end) => Ok(end),
            Err(NoMemory) => Err(WalkFault::NoMemory),
        }
    }
}
