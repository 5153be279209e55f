// Writing a bundle.
ghost use Rattle.std.specs.Prelude.{◌≡◌, ◌-◌, ◌≤◌, true, ◌++◌, length, OnOk, nat_lt};
ghost use Rattle.std.specs.Option.{SomeIff};
ghost use Rattle.entries.specs.Entries.{all_encoded};
ghost use Rattle.bundle.specs.Format.{head_bytes, encoded, good, format, plain, plain_all, plain_written};
ghost use Rattle.bundle.specs.Bundles.{Writes, RefusesAsReadingWould};

use crate::entry::Entry;
use crate::reader::{LONGEST, denied};
use entries::Seen;
use names::is_key;
use record::Denial;
use std::alloc::{AllocError, Global};

// What is left of some room behind an entry, if the entry finds place in it.
fn left_behind(room: usize, e: &Entry<'_>) -> Option<usize>
    ensures { SomeIff result (length (encoded (plain e.now)) ≤ room) (room - length (encoded (plain e.now))) }
{
    room.checked_sub(3)?
        .checked_sub(e.key.len())?
        .checked_sub(e.payload.len())
}

// Whether the entries take more bytes than a bundle may have.
fn is_too_long(entries: &[Entry<'_>]) -> bool
    ensures { result ≡ nat_lt 65536 (length (all_encoded format (plain_all entries.now))) }
{
    entries.iter().try_fold(LONGEST, left_behind).is_none()
}

fn is_well_formed(e: &Entry<'_>) -> bool
    ensures { result ≡ good (plain e.now) }
{
    is_key(e.key) && e.payload.len() < 65536
}

// The bytes before an entry's key.
fn head(e: &Entry<'_>) -> [u8; 3]
    requires { good (plain e.now) ≡ true }
    ensures { result ≡ head_bytes (plain e.now) }
{
    // Both lengths fit, by what is required: nothing is lost by `as`.
    let [high, low] = (e.payload.len() as u16).to_be_bytes();
    [64 * u8::from(e.kind) + e.key.len() as u8, high, low]
}

fn append(out: &mut Vec<u8>, e: &Entry<'_>) -> Result<(), AllocError>
    requires { good (plain e.now) ≡ true }
    ensures { OnOk result (out.new.items ≡ out.old.items ++ encoded (plain e.now)) }
{
    out.extend_from_slice(&head(e))?;
    out.extend_from_slice(e.key)?;
    out.extend_from_slice(e.payload)?;
    Ok(())
}

// The entries one behind another, if they may stand so.
fn write_entries(heap: Global, entries: &[Entry<'_>]) -> Result<Vec<u8>, Denial>
    requires { length (all_encoded format (plain_all entries.now)) ≤ 65536 }
    ensures { Writes (plain_all entries.now) (plain_written result) }
{
    let mut out = Vec::new(heap);
    let mut seen = Seen::new(heap);
    for e in entries {
        if !is_well_formed(e) {
            return Err(Denial::malformed(out.len()));
        }
        seen.check(e.key, out.len()).map_err(denied)?;
        seen.add(e.key)?;
        append(&mut out, e)?;
    }
    Ok(out)
}

// The bundle of these modules, or the refusal that reading it would give.
pub fn write(heap: Global, entries: &[Entry<'_>]) -> Result<Vec<u8>, Denial>
    ensures writes { Writes (plain_all entries.now) (plain_written result) }
    ensures refuses { RefusesAsReadingWould (plain_all entries.now) (plain_written result) }
{
    if is_too_long(entries) {
        return Err(Denial::malformed(LONGEST));
    }
    write_entries(heap, entries)
}
