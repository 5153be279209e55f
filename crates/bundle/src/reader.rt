// Reading a bundle.
ghost use Rattle.std.specs.Prelude.{◌≡◌};
ghost use Rattle.bundle.specs.Format.{plain_read};
ghost use Rattle.bundle.specs.Bundles.{denial, Reads, InvertsWriting};

use crate::entry::Entry;
use entries::Fault;
use record::Denial;
use std::alloc::Global;

// How many bytes a bundle has at most.
pub(crate) const LONGEST: usize = 65536;

// The denial of a fault: no `From`, since neither type is of this crate.
pub(crate) fn denied(fault: Fault) -> Denial
    ensures { result ≡ denial fault }
{
    match fault {
        Fault::Stopped { byte, .. } => Denial::malformed(byte),
        Fault::OutOfMemory(e) => Denial::from(e),
    }
}

// The modules of a bundle, which take the places 0, 1, .. in this order.
pub fn read<'a>(heap: Global, bytes: &'a [u8]) -> Result<Vec<Entry<'a>>, Denial>
    ensures reads { Reads bytes.now (plain_read result) }
    ensures inverts { InvertsWriting bytes.now (plain_read result) }
{
    if bytes.len() > LONGEST {
        return Err(Denial::malformed(LONGEST));
    }
    entries::read_as::<Entry<'a>, Entry<'a>>(heap, bytes).map_err(denied)
}
