//! Lists of cells with room for one in each column.
ghost use Rattle.std.specs.Prelude.{◌≡◌, ◌<◌, ◌≤◌, ◌++◌, [], ◌∷◌, length, IfOk};
ghost use Rattle.emp_line.specs.Sparse.{Sparse};

use emp_list::memory::NoMemory;
use std::alloc::Global;
use std::marker::Model;

/// The number of a line in one column. Columns count from 0.
#[derive(Clone, Copy)]
pub struct Cell {
    pub column: usize,
    pub number: i128,
}

/// Cells, with room for one in each of so many columns. Contracts see `Sparse` of `specs/Sparse.antt`.
#[derive(Drop)]
pub struct Cells {
    width: usize,
    items: Vec<Cell>,
}

impl Model for Cells {
    ghost use Rattle.std.specs.Prelude.{◌≤◌};
    ghost use Rattle.std.specs.Vec.{vec_capacity};
    ghost use Rattle.emp_line.specs.Sparse.{Sparse};

    ghost Value = { Sparse };

    ghost view = { λ c. record { width = c.width; items = c.items.items } };

    ghost invariant = { λ c. c.width ≤ vec_capacity c.items };
}

impl Cells {
    /// No cells yet. The error is the want of memory.
    pub fn new(alloc: Global, width: usize) -> Result<Cells, NoMemory>
        ensures { IfOk result (λ c. c ≡ record { width = width; items = [] }) }
    {
        let items = Vec::with_capacity(alloc, width)?;
        Ok(Cells { width, items })
    }

    /// How many columns there are.
    pub fn width(&self) -> usize
        ensures { result ≡ self.now.width }
    {
        self.width
    }

    /// The cells, in their order.
    pub fn as_slice(&self) -> &[Cell]
        ensures { result.now ≡ self.now.items }
    {
        self.items.as_slice()
    }

    /// Takes all cells out.
    pub fn clear(&mut self)
        ensures { self.new ≡ record { width = self.old.width; items = [] } }
    {
        self.items.clear();
    }

    /// Puts a cell at the end. The caller knows that there are fewer than columns.
    pub fn push(&mut self, cell: Cell)
        requires { length self.old.items < self.old.width }
        ensures { self.new ≡ record { width = self.old.width; items = self.old.items ++ cell ∷ [] } }
    {
        self.items.push_reserved(cell);
    }

    /// The same cells once more, with the same room.
    pub fn copy(&self, alloc: Global) -> Result<Cells, NoMemory>
        ensures { IfOk result (λ c. c ≡ self.now) }
    {
        let mut items = Vec::with_capacity(alloc, self.width)?;
        items.extend_from_slice(self.items.as_slice())?;
        Ok(Cells {
            width: self.width,
            items,
        })
    }
}
