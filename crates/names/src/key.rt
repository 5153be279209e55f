// Keys: segments joined by `/`.
ghost use Rattle.std.specs.Prelude.{◌≡◌, Decides};
ghost use Rattle.names.specs.Names.{every};
ghost use Rattle.names.specs.Keys.{segment_byte, segment, parts, Splits, Key, key};
ghost use Rattle.std.specs.Option.{option_map};

// A key has at most this many bytes.
const LONGEST_KEY: usize = 63;

fn is_segment_byte(b: u8) -> bool
    ensures { result ≡ segment_byte b }
{
    matches!(b, b'a'..=b'z' | b'0'..=b'9' | b'_' | b'-' | b'.')
}

fn are_segment_bytes(bytes: &[u8]) -> bool
    ensures { result ≡ every segment_byte bytes.now }
{
    bytes.iter().all(|b| is_segment_byte(*b))
}

// Neither empty nor `.` nor `..`, and of the bytes that a key may have.
fn is_segment(bytes: &[u8]) -> bool
    ensures { result ≡ segment bytes.now }
{
    are_segment_bytes(bytes) && !matches!(bytes, b"" | b"." | b"..")
}

// The part of a path before its first `/`, and what stands behind that, if there is one.
pub fn split_segment(path: &[u8]) -> (&[u8], Option<&[u8]>)
    ensures { Splits path.now result.0.now (option_map (λ x. x.now) result.1) }
{
    match path.iter().position(|b| *b == b'/') {
        Some(i) => (&path[0..i], Some(&path[i + 1..])),
        None => (path, None),
    }
}

// Whether all parts of a path are segments. By `split_segment`, so that a key comes apart as that call promises. Not compiled
// into `is_key`, so that this is, into its callers.
#[inline(never)]
fn are_segments(path: &[u8]) -> bool
    ensures { result ≡ every segment (parts path.now) }
{
    match split_segment(path) {
        (last, None) => is_segment(last),
        (first, Some(rest)) => is_segment(first) && are_segments(rest),
    }
}

// Whether these are 1 to 63 bytes that are segments joined by `/`.
pub fn is_key(bytes: &[u8]) -> bool
    ensures value { result ≡ key bytes.now }
    ensures exactly { Decides result (Key bytes.now) }
{
    bytes.len() <= LONGEST_KEY && are_segments(bytes)
}
