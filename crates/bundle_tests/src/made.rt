// Bundles made for the tests, and what reading them gives.
use bundle::{Entry, PayloadKind};
use std::alloc::{AllocError, Global};

// The number of a denial, its place and its byte: what can be compared, as a value in a denial cannot.
type Denied = (Option<u8>, Option<usize>, usize);

// How many modules are read, or the denial.
pub(crate) fn count_of(heap: Global, bytes: &[u8]) -> Result<usize, Denied> {
    match bundle::read(heap, bytes) {
        Ok(entries) => Ok(entries.len()),
        Err(d) => Err((d.cause.number(), d.place, d.byte)),
    }
}

// What a malformed bundle is denied with, at this byte.
pub(crate) fn malformed(byte: usize) -> Result<usize, Denied> {
    Err((Some(13), None, byte))
}

// The entries `a`, `b`, .., each an empty text; from the 27th on `a0`, `b0`, ..
pub(crate) fn numbered(heap: Global, count: usize) -> Result<Vec<u8>, AllocError> {
    let mut bytes = Vec::new(heap);
    for i in 0..count {
        let letter = b'a' + (i % 26) as u8;
        if i < 26 {
            bytes.extend_from_slice(&[1, 0, 0, letter])?;
        } else {
            bytes.extend_from_slice(&[2, 0, 0, letter, b'0'])?;
        }
    }
    Ok(bytes)
}

// One text with the key `a` and a payload of this many bytes.
pub(crate) fn one_text(heap: Global, size: u16) -> Result<Vec<u8>, AllocError> {
    let [high, low] = size.to_be_bytes();
    let mut bytes = [1, high, low, b'a'].to_vec(heap)?;
    bytes.resize(4 + usize::from(size), b' ')?;
    Ok(bytes)
}

pub(crate) fn text<'a>(key: &'a [u8], payload: &'a [u8]) -> Entry<'a> {
    Entry {
        kind: PayloadKind::Text,
        key,
        payload,
    }
}
