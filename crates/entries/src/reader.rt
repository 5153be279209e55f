// Reading entries, one behind another.
ghost use Rattle.entries.specs.Reading.{Reads, ReadsAs};

use crate::encoded::Encoded;
use crate::fault::Fault;
use crate::placed::Placed;
use crate::seen::Seen;
use crate::stop::Stop;
use std::alloc::Global;

// The entries that a byte string is, each with the byte at which it begins; or why and at which byte it is refused.
pub fn read<'a, E: Encoded<'a>>(heap: Global, bytes: &'a [u8]) -> Result<Vec<Placed<E>>, Fault>
    ensures { Reads E.format E.contents bytes.now result }
{
    read_as::<E, Placed<E>>(heap, bytes)
}

// The same, with what is made of each entry and its byte in their place, so that it needs no second list.
pub fn read_as<'a, E: Encoded<'a>, T: From<Placed<E>> + Drop>(
    heap: Global,
    bytes: &'a [u8],
) -> Result<Vec<T>, Fault>
    ensures { ReadsAs E.format E.contents T.from_gives bytes.now result }
{
    let mut entries = Vec::new(heap);
    let mut seen = Seen::new(heap);
    let mut rest = bytes;
    // A `while`: what is left is known only once an entry is taken from it.
    while !rest.is_empty() {
        let byte = bytes.len() - rest.len();
        let (entry, behind) = E::first(rest).ok_or(Stop::Malformed.at(byte))?;
        let name = entry.name();
        seen.check(name, byte)?;
        seen.add(name)?;
        entries.push(T::from(Placed { byte, entry }))?;
        rest = behind;
    }
    Ok(entries)
}
