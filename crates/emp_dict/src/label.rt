//! What rows and columns stand for, how far a quantity has come, and what a choice is asked and answers.

/// What a row or a column of a dictionary stands for. Base variables and quantities are numbered from 1.
#[derive(Clone, Copy, Debug, PartialEq, Eq)]
pub enum Label {
    /// The base variable of this number.
    Base(u32),
    /// The quantity of this number.
    Quantity(u32),
    /// The objective.
    Objective,
}

/// How far a quantity has come.
#[derive(Clone, Copy, Debug, PartialEq, Eq)]
pub enum Mark {
    /// Nothing is asked of it yet.
    Unasked,
    /// It is kept at 0 or above.
    Required,
    /// It is kept at 0.
    Fixed,
}

/// What an exchange is to do. Rows count from 0.
#[derive(Clone, Copy, Debug, PartialEq, Eq)]
pub enum Aim {
    /// Raise the quantity of this row.
    Up(usize),
    /// Lower the quantity of this row.
    Down(usize),
    /// Make the objective least.
    Least,
}

/// What the rule of least index chooses. Rows and columns count from 0.
#[derive(Clone, Copy, Debug, PartialEq, Eq)]
pub enum Choice {
    /// No column may move so that the aimed row moves the right way.
    Stop,
    /// This row and this column change places.
    Exchange(usize, usize),
    /// This column moves without end, up where the flag says so and down otherwise.
    Ray(usize, bool),
}
