//! The cells that were left in a closed queue, handed out one after the other.
ghost use Rattle.std.specs.Prelude.{◌≡◌, ◌≤◌, [], drop, get_or, length};
ghost use Rattle.kfifo_c.specs.CellCalls.{TakesNext};
ghost use Rattle.kfifo_c.specs.CellLeft.{LeftSeated};
ghost use Rattle.kfifo_c.specs.CellQueues.{all_cells};

use kfifo_renewing::{CellAt, LeftCells};
use std::marker::Model;

/// The cells that were left in each generation of a closed queue, and which of them is the next one.
///
/// Clauses see it as the numbers of the cells from that one on.
#[derive(Drop)]
pub struct LeftSeat {
    /// The memory of all generations stays until this is dropped.
    pub(crate) left: Vec<LeftCells>,
    pub(crate) generation: usize,
    pub(crate) cell: usize,
}

impl Model for LeftSeat {
    ghost Value = { LeftSeated };

    ghost view = { λ s. drop s.cell (all_cells (drop s.generation s.left.items)) };

    ghost invariant = { λ s. s.cell ≤ length (get_or s.left.items s.generation []) };
}

impl LeftSeat {
    /// All these cells.
    pub(crate) fn new(left: Vec<LeftCells>) -> LeftSeat
        ensures { result ≡ all_cells left.items }
    {
        LeftSeat {
            left,
            generation: 0,
            cell: 0,
        }
    }

    /// The next cell, if there is one more.
    pub(crate) fn take_next(&mut self) -> Option<CellAt>
        ensures { TakesNext result self.old self.new }
    {
        while self.generation < self.left.len() {
            let cells = self.left[self.generation].cells();
            if self.cell < cells.len() {
                let cell = cells[self.cell];
                self.cell += 1;
                return Some(cell);
            }
            self.generation += 1;
            self.cell = 0;
        }
        None
    }
}
