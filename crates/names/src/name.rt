// Names, by their bytes.
ghost use Rattle.std.specs.Prelude.{◌≡◌, IfOk};
ghost use Rattle.std.specs.Str.{bytes_eq};
ghost use Rattle.names.specs.Owned.{bytes_of};

use std::alloc::{AllocError, Global};
use std::fmt;

// By this name and not by `==`, which does not compare bytes with a byte string as it is written.
pub fn same_name(a: &[u8], b: &[u8]) -> bool
    ensures { result ≡ bytes_eq a.now b.now }
{
    a == b
}

// A name that owns its bytes.
#[derive(Drop)]
pub struct Name {
    bytes: Vec<u8>,
}

impl Name {
    pub fn new(heap: Global, bytes: &[u8]) -> Result<Name, AllocError>
        ensures { IfOk result (λ n. bytes_of n ≡ bytes.now) }
    {
        let bytes = Vec::from_slice(heap, bytes)?;
        Ok(Name { bytes })
    }

    pub fn as_bytes(&self) -> &[u8]
        ensures { result.now ≡ bytes_of self.now }
    {
        self.bytes.as_slice()
    }
}

// Bytes as people read them: printable ASCII as it is, any other byte as `\x` and two digits.
#[derive(Clone, Copy)]
pub struct Shown<'a>(pub &'a [u8]);

impl fmt::Display for Shown<'_> {
    fn fmt<W: fmt::Write>(&self, f: &mut fmt::Formatter<W>) -> fmt::Result {
        for b in self.0 {
            match *b {
                32..=126 => f.write_char(char::from(*b))?,
                _ => write!(f, "\\x{b:02x}")?,
            }
        }
        Ok(())
    }
}
