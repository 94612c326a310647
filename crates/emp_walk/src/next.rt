//! What comes next after the work of a node.
ghost use Rattle.std.specs.Prelude.{◌≡◌, ◌<◌, length, not, ◌-ℤ◌, ◌*ℤ◌};
ghost use Rattle.std.specs.Option.{option_map};
ghost use Rattle.emp_num.specs.FracSpec.{IsQuotient};
ghost use Rattle.emp_dict.specs.Dictionary.{line_at};
ghost use Rattle.emp_dict.specs.Dicts.{dictionary_of};
ghost use Rattle.emp_dict.specs.Places.{is_positive};
ghost use Rattle.emp_search.specs.Search.{above, decided, first_pair, is_bounded, still};
ghost use Rattle.emp_walk.specs.Fits.{DoneFits, IsAt};
ghost use Rattle.emp_walk.specs.Decisions.{BestFits, NextFits, TestFits, decision_of, passes, split_next};

use crate::kept::Kept;
use emp_dict::dict::Dict;
use emp_dict::label::Label;
use emp_num::frac::Frac;
use emp_rows::system::RowSystem;
use emp_step::outcome::Outcome;
use std::cmp::Ordering;

/// What comes next after the work of a node. Rows and columns count from 0.
#[derive(Clone, Copy, Debug, PartialEq, Eq)]
pub enum Next {
    /// The node is a leaf with the Farkas row of this row.
    Refuted(usize),
    /// The node is a leaf with the Bound row of this row, and the incumbent stays.
    Bounded(usize),
    /// The node is a leaf with the Bound row of this row, and its point is the incumbent.
    Better(usize),
    /// The pair of this number is split.
    Split(u32),
    /// The node's point is a row point.
    Point,
    /// The objective falls without end along this column, up where the flag says so.
    Ray(usize, bool),
}

/// What is looked for in a pair.
#[derive(Clone, Copy, Debug, PartialEq, Eq)]
pub enum Test {
    /// Both members are above 0.
    Above,
    /// No member stays 0 as this column moves.
    Broken(usize),
}

/// Whether the quantity is above 0 at the dictionary's point.
fn stands_above(dict: &Dict, k: u32) -> bool
    ensures { result ≡ above (dictionary_of dict.now) k }
{
    match dict.row_of(Label::Quantity(k)) {
        Some(row) => dict.constant(row) > 0,
        None => false,
    }
}

/// Whether the quantity is 0 at the dictionary's point, and stays 0 as the column moves.
fn is_still(dict: &Dict, column: usize, k: u32) -> bool
    requires { column < length (dictionary_of dict.now).columns }
    ensures { result ≡ still (dictionary_of dict.now) column k }
{
    match dict.row_of(Label::Quantity(k)) {
        Some(row) => dict.constant(row) == 0 && dict.cell(row, column) == 0,
        None => dict.column_label(column) != Label::Quantity(k),
    }
}

/// Whether the pair passes the test.
fn passes(dict: &Dict, test: Test, pair: (u32, u32)) -> bool
    requires { TestFits (dictionary_of dict.now) test }
    ensures { result ≡ passes (dictionary_of dict.now) test pair }
{
    match test {
        Test::Above => stands_above(dict, pair.0) && stands_above(dict, pair.1),
        Test::Broken(column) => {
            !(is_still(dict, column, pair.0) || is_still(dict, column, pair.1))
        }
    }
}

/// The number of the first pair that passes the test.
fn first_pair(system: &RowSystem, dict: &Dict, test: Test) -> Option<u32>
    requires { TestFits (dictionary_of dict.now) test }
    ensures { result ≡ first_pair (passes (dictionary_of dict.now) test) 1 system.now.pairs }
{
    for at in 0..system.pairs.len() {
        if passes(dict, test, system.pairs.as_slice()[at]) {
            return Some(at as u32 + 1);
        }
    }
    None
}

/// The value of a row's label at the dictionary's point.
fn value(dict: &Dict, row: usize) -> Frac
    requires { row < length (dictionary_of dict.now).rows }
    ensures { IsQuotient result (line_at (dictionary_of dict.now) row).constant (line_at (dictionary_of dict.now) row).denom }
{
    Frac::reduced(dict.constant(row), dict.denom(row))
}

/// Whether the first fraction is at most the second.
#[tactic(auto, using(crate::proofs::Deciding::order_above))]
fn reaches(a: Frac, b: Frac) -> bool
    ensures { result ≡ not (is_positive (a.num *ℤ b.den -ℤ b.num *ℤ a.den)) }
{
    match Frac::cmp(a, b) {
        Ordering::Less => true,
        Ordering::Equal => true,
        Ordering::Greater => false,
    }
}

/// Whether the objective, in this row of the dictionary, is at least what it is at the incumbent.
fn is_bounded(best: &Option<Kept>, dict: &Dict, row: usize) -> bool
    requires best { BestFits best.now }
    requires row { row < length (dictionary_of dict.now).rows }
    ensures { result ≡ is_bounded (option_map dictionary_of best.now) (dictionary_of dict.now) row }
{
    match best {
        Some(incumbent) => {
            let incumbent = incumbent.dictionary();
            let least = value(incumbent, incumbent.quantities());
            reaches(least, value(dict, row))
        }
        None => false,
    }
}

/// The split of a pair, where there is one, else the end.
fn split_or(end: Next, pair: Option<u32>) -> Next
    ensures { result ≡ split_next end pair }
{
    match pair {
        Some(k) => Next::Split(k),
        None => end,
    }
}

/// What comes next after the outcome of a node's work.
pub fn decide(system: &RowSystem, best: &Option<Kept>, dict: &Dict, outcome: Outcome) -> Next
    requires best { BestFits best.now }
    requires done { DoneFits system.now (dictionary_of dict.now) outcome }
    ensures decision { decision_of (option_map dictionary_of best.now) (dictionary_of dict.now) result ≡ decided system.now (option_map dictionary_of best.now) (dictionary_of dict.now) outcome }
    ensures fits { NextFits system.now (dictionary_of dict.now) result }
{
    match outcome {
        Outcome::Held => split_or(Next::Point, first_pair(system, dict, Test::Above)),
        Outcome::Empty(row) => Next::Refuted(row),
        Outcome::Best(row) => {
            if is_bounded(best, dict, row) {
                Next::Bounded(row)
            } else {
                split_or(Next::Better(row), first_pair(system, dict, Test::Above))
            }
        }
        Outcome::Ray(column, up) => {
            split_or(
                Next::Ray(column, up),
                first_pair(system, dict, Test::Broken(column)),
            )
        }
    }
}
