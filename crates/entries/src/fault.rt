// Why no entries are read.
ghost use Rattle.std.specs.Prelude.{◌≡◌, alloc_error};
ghost use Rattle.entries.specs.declared.fault.Fault.TheVariants.{Stopped, OutOfMemory};

use crate::stop::Stop;
use std::alloc::AllocError;

#[derive(Clone, Copy)]
pub enum Fault {
    // the byte string is refused at the entry that begins at this byte
    Stopped { why: Stop, byte: usize },
    OutOfMemory(AllocError),
}

impl Stop {
    // The refusal at the entry that begins at this byte.
    pub(crate) fn at(self, byte: usize) -> Fault
        ensures { result ≡ Stopped self byte }
    {
        Fault::Stopped { why: self, byte }
    }
}

impl<E: Into<AllocError>> From<E> for Fault {
    ghost from_gives = { λ _ r. r ≡ OutOfMemory alloc_error };

    fn from(e: E) -> Fault {
        Fault::OutOfMemory(e.into())
    }
}
