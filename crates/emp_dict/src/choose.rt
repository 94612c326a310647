//! The choice of an exchange by least index, with ratios compared exactly.
ghost use Rattle.std.specs.Prelude.{◌≡◌, ◌≢◌, ◌<◌, ◌*ℤ◌, pos, length, Some, IfSome};
ghost use Rattle.std.specs.Option.{option_map};
ghost use Rattle.emp_turns.specs.Choice.{toward};
ghost use Rattle.emp_turns.specs.Chooses.{better_column, better_row, is_negative, is_nearer};
ghost use Rattle.emp_dict.specs.Dictionary.{IsLabel, cell_at};
ghost use Rattle.emp_dict.specs.Dicts.{dictionary_of};
ghost use Rattle.emp_dict.specs.Chosen.{AimFits, aim_stops, aimed_row, aimed_way, chosen, entering, index_in, layout_of, leaving, mark_by_index, way_by};
ghost use Rattle.emp_dict.specs.Places.{HasCell, IsColumn, entry_of, freedom_of, is_positive, opening_at, stopping_at, way_for};

use crate::dict::Dict;
use crate::label::{Aim, Choice, Label, Mark};
use emp_num::order::cmp_quotients;
use std::cmp::Ordering;

/// A column that moves, and whether it moves up.
#[derive(Clone, Copy)]
pub struct Entry {
    pub column: usize,
    pub up: bool,
}

/// How a label may move.
#[derive(Clone, Copy, Debug, PartialEq, Eq)]
pub enum Freedom {
    /// Up and down, as a base variable.
    Both,
    /// Up alone, as a Required quantity.
    Upward,
    /// Not at all.
    Still,
}

/// Whether the aim raises its row.
fn is_upward(aim: Aim) -> bool
    ensures { way_by result ≡ aimed_way aim }
{
    match aim {
        Aim::Up(_) => true,
        Aim::Down(_) => false,
        Aim::Least => false,
    }
}

/// Whether the aimed row stops where it comes to 0.
fn stops_at_zero(aim: Aim) -> bool
    ensures { result ≡ aim_stops aim }
{
    match aim {
        Aim::Up(_) => true,
        Aim::Down(_) => true,
        Aim::Least => false,
    }
}

/// The way up where it is asked for and the label may go it.
fn way_for(freedom: Freedom, up: bool) -> Option<bool>
    ensures { option_map way_by result ≡ way_for freedom up }
{
    match freedom {
        Freedom::Both => Some(up),
        Freedom::Upward => { if up { Some(true) } else { None } }
        Freedom::Still => None,
    }
}

impl Dict {
    /// Whether a column moves the aimed row the right way by going up, where it moves it at all.
    fn helps_up(&self, aim: Aim, column: usize) -> bool
        requires aim { AimFits (dictionary_of self.now) aim }
        requires column { column < length (dictionary_of self.now).columns }
        ensures { result ≡ is_positive (toward (aimed_way aim) *ℤ cell_at (dictionary_of self.now) (aimed_row (dictionary_of self.now) aim) column) }
    {
        let cell = self.cell(self.aimed_row(aim), column);
        if is_upward(aim) { cell > 0 } else { cell < 0 }
    }

    /// The aimed row.
    fn aimed_row(&self, aim: Aim) -> usize
        ensures { result ≡ aimed_row (dictionary_of self.now) aim }
    {
        match aim {
            Aim::Up(row) => row,
            Aim::Down(row) => row,
            Aim::Least => self.quantities(),
        }
    }

    /// The place of a label in the order of labels, which `index` of `specs/Chosen.antt` says: base variables first, then quantities, then the objective.
    pub fn index(&self, label: Label) -> usize
        requires { IsLabel (length (dictionary_of self.now).columns) (length (dictionary_of self.now).marks) (length (dictionary_of self.now).rows) label }
        ensures { result ≡ index_in (dictionary_of self.now) label }
    {
        match label {
            Label::Base(b) => (b - 1) as usize,
            Label::Quantity(k) => self.columns() + (k - 1) as usize,
            Label::Objective => self.columns() + self.quantities(),
        }
    }

    /// How a label may move.
    fn freedom(&self, label: Label) -> Freedom
        requires { IsLabel (length (dictionary_of self.now).columns) (length (dictionary_of self.now).marks) (length (dictionary_of self.now).rows) label }
        ensures { result ≡ freedom_of (mark_by_index (dictionary_of self.now) (index_in (dictionary_of self.now) label)) }
    {
        match label {
            Label::Base(_) => Freedom::Both,
            Label::Quantity(k) => match self.mark(k) {
                Mark::Required => Freedom::Upward,
                Mark::Unasked => Freedom::Still,
                Mark::Fixed => Freedom::Still,
            },
            Label::Objective => Freedom::Still,
        }
    }

    /// The way in which a column may move so that the aimed row moves the right way.
    fn opening(&self, aim: Aim, column: usize) -> Option<bool>
        requires aim { AimFits (dictionary_of self.now) aim }
        requires column { column < length (dictionary_of self.now).columns }
        ensures { option_map way_by result ≡ opening_at (dictionary_of self.now) aim column }
    {
        if self.cell(self.aimed_row(aim), column) == 0 {
            return None;
        }
        let freedom = self.freedom(self.column_label(column));
        way_for(freedom, self.helps_up(aim, column))
    }

    /// The better of a column that opens and the best before it.
    fn better_column(&self, column: usize, way: Option<bool>, best: Option<Entry>) -> Option<Entry>
        requires column { column < length (dictionary_of self.now).columns }
        requires best { IfSome best (IsColumn (dictionary_of self.now)) }
        ensures value { option_map entry_of result ≡ better_column (layout_of (dictionary_of self.now)).column_label column (option_map way_by way) (option_map entry_of best) }
        ensures kept { IfSome result (IsColumn (dictionary_of self.now)) }
    {
        let Some(up) = way else {
            return best;
        };
        let Some(found) = best else {
            return Some(Entry { column, up });
        };
        if self.index(self.column_label(column)) < self.index(self.column_label(found.column)) {
            Some(Entry { column, up })
        } else {
            best
        }
    }

    /// The column of least index that may move so that the aimed row moves the right way.
    fn entering(&self, aim: Aim) -> Option<Entry>
        requires { AimFits (dictionary_of self.now) aim }
        ensures { option_map entry_of result ≡ entering (dictionary_of self.now) aim }
    {
        let mut best = None;
        for column in 0..self.columns() {
            best = self.better_column(column, self.opening(aim, column), best);
        }
        best
    }

    /// Whether a row falls as the column moves.
    fn falls(&self, entry: Entry, row: usize) -> bool
        requires row { row < length (dictionary_of self.now).rows }
        requires column { IsColumn (dictionary_of self.now) entry }
        ensures { result ≡ is_negative (toward (way_by entry.up) *ℤ cell_at (dictionary_of self.now) row entry.column) }
    {
        let cell = self.cell(row, entry.column);
        if entry.up { cell < 0 } else { cell > 0 }
    }

    /// Whether a row stops the column.
    fn stops(&self, aim: Aim, entry: Entry, row: usize) -> bool
        requires row { row < length (dictionary_of self.now).rows }
        requires column { IsColumn (dictionary_of self.now) entry }
        ensures { result ≡ stopping_at (dictionary_of self.now) aim entry.column (way_by entry.up) row }
    {
        (self.freedom(self.row_label(row)) == Freedom::Upward && self.falls(entry, row))
            || (row == self.aimed_row(aim) && stops_at_zero(aim))
    }

    /// Whether a row has the lesser ratio in the column, or the same one and the lesser index.
    fn is_nearer(&self, column: usize, row: usize, best: usize) -> bool
        requires column { column < length (dictionary_of self.now).columns }
        requires row { HasCell (dictionary_of self.now) column row }
        requires best { HasCell (dictionary_of self.now) column best }
        ensures { result ≡ is_nearer (layout_of (dictionary_of self.now)) column row best }
    {
        let order = cmp_quotients(
            self.constant(row).unsigned_abs(),
            self.cell(row, column).unsigned_abs(),
            self.constant(best).unsigned_abs(),
            self.cell(best, column).unsigned_abs(),
        );
        match order {
            Ordering::Less => true,
            Ordering::Equal => {
                self.index(self.row_label(row)) < self.index(self.row_label(best))
            }
            Ordering::Greater => false,
        }
    }

    /// The better of a row that stops the column and the best before it.
    fn better_row(&self, aim: Aim, entry: Entry, row: usize, best: Option<usize>) -> Option<usize>
        requires row { row < length (dictionary_of self.now).rows }
        requires opens { opening_at (dictionary_of self.now) aim entry.column ≡ Some (way_by entry.up) }
        requires column { IsColumn (dictionary_of self.now) entry }
        requires best { IfSome best (HasCell (dictionary_of self.now) entry.column) }
        ensures value { result ≡ better_row (layout_of (dictionary_of self.now)) entry.column row (stopping_at (dictionary_of self.now) aim entry.column (way_by entry.up) row) best }
        ensures kept { IfSome result (HasCell (dictionary_of self.now) entry.column) }
    {
        if !self.has_cell(row, entry.column) {
            return best;
        }
        if !self.stops(aim, entry, row) {
            return best;
        }
        let Some(found) = best else {
            return Some(row);
        };
        if self.is_nearer(entry.column, row, found) {
            Some(row)
        } else {
            best
        }
    }

    /// Of the rows that stop the column, those of least ratio, and of these the one of least index.
    fn leaving(&self, aim: Aim, entry: Entry) -> Option<usize>
        requires opens { opening_at (dictionary_of self.now) aim entry.column ≡ Some (way_by entry.up) }
        requires column { IsColumn (dictionary_of self.now) entry }
        ensures { result ≡ leaving (dictionary_of self.now) aim (entry_of entry) }
    {
        let mut best = None;
        for row in 0..self.rows() {
            best = self.better_row(aim, entry, row, best);
        }
        best
    }

    /// The exchange by least index: the column of least index that may move so that the aimed row moves the right way, and of the rows that
    /// stop it the one of least ratio, of these that of least index. `Stop` where no column may move so, `Ray` where nothing stops it.
    pub fn choose(&self, aim: Aim) -> Choice
        requires { AimFits (dictionary_of self.now) aim }
        ensures { result ≡ chosen (dictionary_of self.now) aim }
    {
        let Some(entry) = self.entering(aim) else {
            return Choice::Stop;
        };
        match self.leaving(aim, entry) {
            Some(row) => Choice::Exchange(row, entry.column),
            None => Choice::Ray(entry.column, entry.up),
        }
    }
}
