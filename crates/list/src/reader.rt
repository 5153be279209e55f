// Lists, read as modules.
ghost use Rattle.std.specs.Prelude.{◌≡◌};
ghost use Rattle.list.specs.Reading.{cause_of, load_fault, ReadsExactly};

use crate::entry::Entry;
use crate::module::SyntheticModule;
use entries::{Fault, Placed, Stop};
use record::{Cause, LoadFault};
use std::alloc::Global;

// A function, since neither type is of this crate.
fn cause_of(why: Stop) -> Cause
    ensures { result ≡ cause_of why }
{
    match why {
        Stop::Malformed => Cause::MalformedList,
        Stop::TooMany => Cause::OverLimit,
        Stop::Repeated => Cause::RepeatedName,
    }
}

// The load fault of a fault in reading: no `From`, since neither type is of this crate.
fn refused(fault: Fault) -> LoadFault
    ensures { result ≡ load_fault fault }
{
    match fault {
        Fault::Stopped { why, byte } => LoadFault {
            cause: cause_of(why),
            byte,
        },
        Fault::OutOfMemory(e) => LoadFault::from(e),
    }
}

// Reads a list: its module, or the cause and the byte that it is refused with.
pub fn read(heap: Global, bytes: &[u8]) -> Result<SyntheticModule, LoadFault>
    ensures { ReadsExactly bytes.now result }
{
    let all = entries::read::<Entry<'_>>(heap, bytes).map_err(refused)?;
    let mut module = SyntheticModule::new(heap);
    for Placed { byte, entry } in &all {
        module.add(heap, entry, *byte)?;
    }
    Ok(module)
}
