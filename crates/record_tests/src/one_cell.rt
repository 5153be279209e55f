// A record kind in which each place reads as the same record, with one exported cell `x`, to which the body stores a value.
ghost use Rattle.std.specs.Prelude.{◌≡◌, true, IfOk};
ghost use Rattle.record.specs.Modules.{well_formed};
ghost use Rattle.record.specs.Plain.{plain};
ghost use Rattle.record_tests.specs.OneCell.{storing, storing_lawful, one_cell};

use names::Name;
use record::{CellEntry, Cells, Fault, Kind, LoadFault, LocalExport, Record, Value};
use std::alloc::{AllocError, Global};

#[derive(Drop)]
pub struct OneCell {
    same: Record,
    value: Value,
    runs: u64,
    ghost ok: { well_formed (plain same) ≡ true },
}

impl OneCell {
    pub fn new(heap: Global, value: Value) -> Result<OneCell, AllocError>
        ensures { IfOk result (λ k. plain k.same ≡ one_cell) }
    {
        // Written out: a public constructor of an empty record would serve only here and in `list`.
        let same = Record {
            requests: Vec::new(heap),
            imports: Vec::new(heap),
            locals: vec![in heap;
                LocalExport {
                    export_name: Name::new(heap, b"x")?,
                    cell: 0,
                    byte: 0,
                },
            ]?,
            indirects: Vec::new(heap),
            stars: Vec::new(heap),
            cells: vec![in heap;
                CellEntry {
                    name: Name::new(heap, b"x")?,
                    byte: 0,
                },
            ]?,
        };
        Ok(OneCell {
            same,
            value,
            runs: 0,
        })
    }
}

impl Kind for OneCell {
    ghost meaning = { λ k. storing (plain k.same) k.value };

    ghost lawful = { λ k. storing_lawful (plain k.same) k.value k.ok };

    ghost trail = { λ k. k.runs };

    fn read(&self, _place: usize) -> Result<&Record, LoadFault> {
        Ok(&self.same)
    }

    fn run(
        &mut self,
        place: usize,
        _imports: &[(usize, usize)],
        cells: &mut Cells,
    ) -> Result<(), Fault> {
        cells.store(place, 0, self.value);
        self.runs = self.runs.wrapping_add(1);
        Ok(())
    }

    fn trail_count(&self) -> u64 {
        self.runs
    }
}
