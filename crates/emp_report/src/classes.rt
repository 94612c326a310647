//! The lines of classes of files that are refused, of wide numbers and of the search.
ghost use Rattle.std.specs.Prelude.{◌≡◌, ◌≢◌, ◌≤◌, ◌+◌, ◌++◌, codes, decimal, length, take, MatchOption};
ghost use Rattle.emp_report.specs.TextLines.{variable_name};
ghost use Rattle.emp_report.specs.ClassLines.{poly_line, poly_status, quadratic_line, leader_line, convex_line, curvature_line, value_line, row_line, pivot_line, spent_line, rows_line};
ghost use Rattle.emp_poly.specs.declared.tree.PolyFault.TheVariants as poly_words;

use crate::parts::{cut, equation_name, in_tree, variable_name};
use emp_ast::model::Model;
use emp_ast::tree::{EquId, VarId};
use emp_command::line::{Line, add, numbered, plain};
use emp_poly::tree::PolyFault;

/// The line of a tree that has no polynomial; none for a want of memory.
pub fn poly_line(fault: PolyFault) -> Option<Line>
    ensures { MatchOption result (fault ≡ poly_words.NoMemory) (λ l. (fault ≢ poly_words.NoMemory) × (l.items ≡ poly_line fault)) }
{
    match fault {
        PolyFault::Degree(place) => Some(in_tree(b"error 17: degree ", place)),
        PolyFault::DivideByVariable(place) => {
            Some(in_tree(b"error 17: divide by variable ", place))
        }
        PolyFault::DivideByZero(place) => Some(in_tree(b"error 17: divide by zero ", place)),
        PolyFault::Wide(place) => Some(in_tree(b"error 19: wide coefficient ", place)),
        PolyFault::NoMemory => None,
    }
}

/// The status of a tree that has no polynomial.
pub fn poly_status(fault: PolyFault) -> u8
    ensures { result ≡ poly_status fault }
{
    match fault {
        PolyFault::Degree(_) | PolyFault::DivideByVariable(_) | PolyFault::DivideByZero(_) => 17,
        PolyFault::Wide(_) => 19,
        PolyFault::NoMemory => 21,
    }
}

/// Adds the names of a pair of variables, which end the line.
fn add_pair(line: &mut Line, model: &Model, first: VarId, second: VarId)
    requires { length line.old.items ≤ 120 }
    ensures { line.new.items ≡ line.old.items ++ take 63 (variable_name model.now first) ++ codes " " ++ take 63 (variable_name model.now second) ++ codes "\n" }
{
    add(line, cut(variable_name(model, first)));
    add(line, b" ");
    add(line, cut(variable_name(model, second)));
    add(line, b"\n");
}

/// The line of an equation with a quadratic coefficient at a pair of variables.
pub fn quadratic_line(model: &Model, equation: EquId, first: VarId, second: VarId) -> Line
    ensures { result.items ≡ quadratic_line model.now equation first second }
{
    let mut line = plain(b"error 17: quadratic constraint ");
    add(&mut line, cut(equation_name(model, equation)));
    add(&mut line, b" ");
    add_pair(&mut line, model, first, second);
    line
}

/// The line of a leader's objective with a quadratic coefficient at a pair of variables.
pub fn leader_line(model: &Model, first: VarId, second: VarId) -> Line
    ensures { result.items ≡ leader_line model.now first second }
{
    let mut line = plain(b"error 17: leader not linear ");
    add_pair(&mut line, model, first, second);
    line
}

/// A line with two numbers.
fn twice_numbered(start: &[u8], first: u64, middle: &[u8], second: u64) -> Line
    requires { length start.now + length middle.now ≤ 100 }
    ensures { result.items ≡ start.now ++ decimal first ++ middle.now ++ decimal second ++ codes "\n" }
{
    let mut line = numbered(start, first, middle);
    let end = numbered(b"", second, b"\n");
    add(&mut line, end.as_slice());
    line
}

/// The line of an agent that is not convex in its first own variables, this one the last; both are counted from 1.
pub fn convex_line(agent: u32, own: u32) -> Line
    ensures { result.items ≡ convex_line agent own }
{
    twice_numbered(
        b"error 18: agent ",
        u64::from(agent),
        b" is not convex at own variable ",
        u64::from(own),
    )
}

/// The line of a wide number in the test of an agent's convexity, at the row of an own variable; both are counted from 1.
pub fn curvature_line(agent: u32, own: u32) -> Line
    ensures { result.items ≡ curvature_line agent own }
{
    twice_numbered(
        b"error 19: wide curvature agent ",
        u64::from(agent),
        b" variable ",
        u64::from(own),
    )
}

/// The line of a defined objective whose value is wide.
pub fn value_line(model: &Model, variable: VarId) -> Line
    ensures { result.items ≡ value_line model.now variable }
{
    let mut line = plain(b"error 19: wide value ");
    add(&mut line, cut(variable_name(model, variable)));
    add(&mut line, b"\n");
    line
}

/// The line of a wide number in the quantity of this number, counted from 1.
pub fn row_line(row: u32) -> Line
    ensures { result.items ≡ row_line row }
{
    numbered(b"error 19: wide row ", u64::from(row), b"\n")
}

/// The line of a wide pivot at a node, both counted from 1.
pub fn pivot_line(node: u64, pivot: u64) -> Line
    ensures { result.items ≡ pivot_line node pivot }
{
    twice_numbered(b"error 19: wide at node ", node, b" pivot ", pivot)
}

/// The line of a search that asked for more units of work than these.
pub fn spent_line(work: u64) -> Line
    ensures { result.items ≡ spent_line work }
{
    numbered(b"error 20: work ", work, b" spent\n")
}

/// The line of a row system that is too large.
pub fn rows_line() -> Line
    ensures { result.items ≡ rows_line }
{
    plain(b"error 24: rows too large\n")
}
