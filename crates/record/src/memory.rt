// Want of memory, as a denial and as a load fault; it names no place and no byte.
ghost use Rattle.std.specs.Prelude.{◌≡◌};
ghost use Rattle.record.specs.Memory.{memory_denial, memory_fault};

use crate::denial::{Cause, Denial, LoadFault};
use std::alloc::AllocError;

// One for each type, from whatever becomes an `AllocError`.
impl<E: Into<AllocError>> From<E> for Denial {
    ghost from_gives = { λ _ r. r ≡ memory_denial };

    fn from(e: E) -> Denial {
        let AllocError = e.into();
        Denial {
            cause: Cause::OutOfMemory,
            place: None,
            byte: 0,
        }
    }
}

impl<E: Into<AllocError>> From<E> for LoadFault {
    ghost from_gives = { λ _ r. r ≡ memory_fault };

    fn from(e: E) -> LoadFault {
        let Denial { cause, byte, .. } = Denial::from(e);
        LoadFault { cause, byte }
    }
}
