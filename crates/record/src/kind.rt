// Record kinds: which record stands at a place, and what its body does.
ghost use Rattle.std.specs.Prelude.{◌≡◌, ℕ, ◌+◌, ◌%◌, ◌^◌};
ghost use Rattle.record.specs.Meanings.{Kinding, LawfulKind};
ghost use Rattle.record.specs.Plain.{read_answer};
ghost use Rattle.record.specs.Runs.{Runs};

use crate::cells::Cells;
use crate::denial::LoadFault;
use crate::module::Record;
use crate::value::Fault;

// The trail is a count that a kind stores, to which each run adds; it wraps at 2^64.
pub trait Kind {
    ghost meaning: { Self → Kinding };

    ghost lawful: { (k : Self) → LawfulKind (meaning k) };

    ghost trail: { Self → ℕ };

    // The record at a place, or what it is refused with.
    fn read(&self, place: usize) -> Result<&Record, LoadFault>
        ensures { read_answer result ≡ (meaning self.now).reading place };

    // Runs the body at a place, whose import entries lead to these bindings.
    fn run(
        &mut self,
        place: usize,
        imports: &[(usize, usize)],
        cells: &mut Cells,
    ) -> Result<(), Fault>
        ensures runs { Runs (meaning self.old) place imports.now cells.old.rows result cells.new.rows }
        ensures keeps { meaning self.new ≡ meaning self.old }
        ensures counts { trail self.new ≡ (trail self.old + (meaning self.old).adds place) % (2 ^ 64) };

    fn trail_count(&self) -> u64
        ensures { result ≡ trail self.now };
}
