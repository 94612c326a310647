//! What is next in a step.
ghost use Rattle.std.specs.Prelude.{◌≡◌, ◌<◌, length, IfSome, IfNone};
ghost use Rattle.emp_dict.specs.Dictionary.{cell_at, line_at};
ghost use Rattle.emp_dict.specs.Dicts.{dictionary_of};
ghost use Rattle.emp_step.specs.Steps.{best_look, by_choice, by_least, first_loose, fix_look, fix_row, is_loose, leave_row, lesser, raise_look, raise_row};
ghost use Rattle.emp_step.specs.Laws.{HasObjective};
ghost use Rattle.emp_face.specs.Runs.{CanLook, look_of, looks};

use emp_dict::dict::Dict;
use emp_dict::label::{Aim, Choice, Label, Mark};
use emp_step::outcome::Outcome;

/// A step is over, or the pivot on a row and a column is next.
#[derive(Clone, Copy, Debug, PartialEq, Eq)]
pub enum Next {
    /// It is over.
    Over(Outcome),
    /// This row and this column change places.
    Turn(usize, usize),
}

/// Which step.
#[derive(Clone, Copy, Debug, PartialEq, Eq)]
pub enum Task {
    /// The quantity of this number is made at least 0.
    Raise(u32),
    /// The quantity of this number is made 0.
    Fix(u32),
    /// The objective is made least.
    Least,
}

/// What comes of a choice that was asked to move a quantity's row.
fn by_choice(row: usize, choice: Choice) -> Next
    ensures { look_of result ≡ by_choice row choice }
{
    match choice {
        Choice::Stop => Next::Over(Outcome::Empty(row)),
        Choice::Exchange(leaving, column) => Next::Turn(leaving, column),
        Choice::Ray(column, up) => Next::Over(Outcome::Ray(column, up)),
    }
}

fn raise_row(dict: &Dict, row: usize) -> Next
    requires { row < length (dictionary_of dict.now).rows }
    ensures { look_of result ≡ raise_row (dictionary_of dict.now) row (line_at (dictionary_of dict.now) row).constant }
{
    if dict.constant(row) < 0 {
        by_choice(row, dict.choose(Aim::Up(row)))
    } else {
        Next::Over(Outcome::Held)
    }
}

fn raise_look(dict: &Dict, k: u32) -> Next
    ensures { look_of result ≡ raise_look k (dictionary_of dict.now) }
{
    match dict.row_of(Label::Quantity(k)) {
        Some(row) => raise_row(dict, row),
        None => Next::Over(Outcome::Held),
    }
}

/// Whether a column is not Fixed and has a cell in the row.
fn is_loose(dict: &Dict, row: usize, column: usize) -> bool
    requires row { row < length (dictionary_of dict.now).rows }
    requires column { column < length (dictionary_of dict.now).columns }
    ensures { result ≡ is_loose (dictionary_of dict.now) row column }
{
    if dict.cell(row, column) == 0 {
        return false;
    }
    match dict.column_label(column) {
        Label::Base(_) => true,
        Label::Quantity(k) => dict.mark(k) != Mark::Fixed,
        Label::Objective => true,
    }
}

/// The better of a column and the best before it.
fn lesser(dict: &Dict, column: usize, loose: bool, best: Option<usize>) -> Option<usize>
    requires column { column < length (dictionary_of dict.now).columns }
    requires best { IfSome best (λ j. j < length (dictionary_of dict.now).columns) }
    ensures value { result ≡ lesser (dictionary_of dict.now) column loose best }
    ensures kept { IfSome result (λ j. j < length (dictionary_of dict.now).columns) }
{
    if !loose {
        return best;
    }
    let Some(found) = best else {
        return Some(column);
    };
    if dict.index(dict.column_label(column)) < dict.index(dict.column_label(found)) {
        Some(column)
    } else {
        best
    }
}

/// The column of least index that is not Fixed and has a cell in the row.
pub fn first_loose(dict: &Dict, row: usize) -> Option<usize>
    requires { row < length (dictionary_of dict.now).rows }
    ensures { result ≡ first_loose (dictionary_of dict.now) row (length (dictionary_of dict.now).columns) }
{
    let mut best = None;
    for column in 0..dict.columns() {
        best = lesser(dict, column, is_loose(dict, row, column), best);
    }
    best
}

/// A row whose value is 0 leaves by one more pivot, where there is one.
fn leave_row(dict: &Dict, row: usize) -> Next
    requires { row < length (dictionary_of dict.now).rows }
    ensures { look_of result ≡ leave_row row (first_loose (dictionary_of dict.now) row (length (dictionary_of dict.now).columns)) }
{
    match first_loose(dict, row) {
        Some(column) => Next::Turn(row, column),
        None => Next::Over(Outcome::Held),
    }
}

fn fix_row(dict: &Dict, row: usize) -> Next
    requires { row < length (dictionary_of dict.now).rows }
    ensures { look_of result ≡ fix_row (dictionary_of dict.now) row (line_at (dictionary_of dict.now) row).constant }
{
    let constant = dict.constant(row);
    if constant < 0 {
        by_choice(row, dict.choose(Aim::Up(row)))
    } else if constant > 0 {
        by_choice(row, dict.choose(Aim::Down(row)))
    } else {
        leave_row(dict, row)
    }
}

fn fix_look(dict: &Dict, k: u32) -> Next
    ensures { look_of result ≡ fix_look k (dictionary_of dict.now) }
{
    match dict.row_of(Label::Quantity(k)) {
        Some(row) => fix_row(dict, row),
        None => Next::Over(Outcome::Held),
    }
}

/// What comes of a choice that was asked to make the objective least.
fn by_least(dict: &Dict, choice: Choice) -> Next
    ensures { look_of result ≡ by_least (dictionary_of dict.now) choice }
{
    match choice {
        Choice::Stop => Next::Over(Outcome::Best(dict.quantities())),
        Choice::Exchange(row, column) => Next::Turn(row, column),
        Choice::Ray(column, up) => Next::Over(Outcome::Ray(column, up)),
    }
}

fn best_look(dict: &Dict) -> Next
    requires { HasObjective (dictionary_of dict.now) }
    ensures { look_of result ≡ best_look (dictionary_of dict.now) }
{
    by_least(dict, dict.choose(Aim::Least))
}

/// What is next in a step.
pub fn look(dict: &Dict, task: Task) -> Next
    requires { CanLook task (dictionary_of dict.now) }
    ensures { look_of result ≡ looks task (dictionary_of dict.now) }
{
    match task {
        Task::Raise(k) => raise_look(dict, k),
        Task::Fix(k) => fix_look(dict, k),
        Task::Least => best_look(dict),
    }
}
