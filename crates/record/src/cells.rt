// The cells of all modules: 32 for each of 32 places.
ghost use Rattle.std.specs.Prelude.{◌≡◌};
ghost use Rattle.record.specs.Cells.{blank, held, stored, Square};

use crate::value::{Cell, Value};

// An array, since no call on cells allocates.
#[derive(Drop)]
pub struct Cells {
    rows: [[Cell; 32]; 32],
    ghost square: { Square rows },
}

impl Cells {
    // All empty.
    pub fn new() -> Cells
        ensures { result.rows ≡ blank }
    {
        Cells {
            rows: [[None; 32]; 32],
        }
    }

    // What a cell holds; where there is none, it is empty.
    // Place and cell are two arguments, as in `store`, where a body gives its own place and the index of a cell.
    pub fn get(&self, place: usize, cell: usize) -> Cell
        ensures { result ≡ held self.now.rows (place, cell) }
    {
        *self.rows.get(place)?.get(cell)?
    }

    // Stores a value to a cell, if there is one.
    pub fn store(&mut self, place: usize, cell: usize, value: Value)
        ensures { self.new.rows ≡ stored self.old.rows (place, cell) value }
    {
        // By index: of what a write through a slice's `get_mut` leaves, a proof knows the length alone.
        if place < 32 && cell < 32 {
            self.rows[place][cell] = Some(value);
        }
    }
}
