// A list as a module.
ghost use Rattle.std.specs.Prelude.{◌≡◌, [], ◌∷◌, ◌++◌, OnOk};
ghost use Rattle.record.specs.Plain.{plain};
ghost use Rattle.list.specs.Lists.{module_of, value};
ghost use Rattle.list.specs.Modules.{with_entry};
ghost use Rattle.list.specs.Reading.{content};

use crate::entry::Entry;
use names::Name;
use record::{CellEntry, LocalExport, Record, Value};
use std::alloc::{AllocError, Global};

// A module whose cells take given values: its record, and the value of each cell.
// The values stand beside the record's cells and not in them: a record is the same for every kind of modules.
#[derive(Drop)]
pub struct SyntheticModule {
    pub record: Record,
    pub values: Vec<Value>,
}

impl SyntheticModule {
    // Of no entries.
    pub(crate) fn new(heap: Global) -> SyntheticModule
        ensures declares { plain result.«record» ≡ module_of [] }
        ensures values { result.values.items ≡ [] }
    {
        SyntheticModule {
            record: Record {
                requests: Vec::new(heap),
                imports: Vec::new(heap),
                locals: Vec::new(heap),
                indirects: Vec::new(heap),
                stars: Vec::new(heap),
                cells: Vec::new(heap),
            },
            values: Vec::new(heap),
        }
    }

    // Declares and exports a cell for an entry that begins at this byte. By the entry and the byte: the module does not
    // depend on the reader's type.
    pub(crate) fn add(
        &mut self,
        heap: Global,
        entry: &Entry<'_>,
        byte: usize,
    ) -> Result<(), AllocError>
        ensures declares { OnOk result (plain self.new.«record» ≡ with_entry (plain self.old.«record») entry.now.name.now byte) }
        ensures values { OnOk result (self.new.values.items ≡ self.old.values.items ++ (value (content entry.now.content) ∷ [])) }
    {
        let declared = CellEntry {
            name: Name::new(heap, entry.name)?,
            byte,
        };
        let exported = LocalExport {
            export_name: Name::new(heap, entry.name)?,
            cell: self.record.cells.len(),
            byte,
        };
        self.record.cells.push(declared)?;
        self.record.locals.push(exported)?;
        self.values.push(Value::from(entry.content))?;
        Ok(())
    }
}
