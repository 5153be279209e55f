// The names of the entries read so far.
ghost use Rattle.std.specs.Prelude.{◌≡◌, [], ◌∷◌, ◌++◌, MatchResult, None};
ghost use Rattle.names.specs.Names.{among};
ghost use Rattle.entries.specs.Seen.{seen, refusal, Refuses};

use crate::fault::Fault;
use crate::stop::Stop;
use std::alloc::{AllocError, Global};

// How many entries there may be.
const MOST: usize = 32;

// A list beside that of the entries, since a writer keeps no other.
#[derive(Drop)]
pub struct Seen<'a> {
    names: Vec<&'a [u8]>,
}

impl<'a> Seen<'a> {
    pub fn new(heap: Global) -> Seen<'a>
        ensures { seen result ≡ [] }
    {
        Seen {
            names: Vec::new(heap),
        }
    }

    // By `any`, which is compiled in place: `contains` is a call for each list, of twice the work on short names.
    fn has(&self, name: &[u8]) -> bool
        ensures { result ≡ among (seen self.now) name.now }
    {
        self.names.iter().any(|x| *x == name)
    }

    // Whether a well-formed entry of this name, which begins at this byte, may follow these.
    pub fn check(&self, name: &[u8], byte: usize) -> Result<(), Fault>
        ensures { MatchResult result (λ _. refusal (seen self.now) name.now ≡ None) (λ fault. Refuses (refusal (seen self.now) name.now) byte fault) }
    {
        if self.names.len() >= MOST {
            return Err(Stop::TooMany.at(byte));
        }
        if self.has(name) {
            return Err(Stop::Repeated.at(byte));
        }
        Ok(())
    }

    pub fn add(&mut self, name: &'a [u8]) -> Result<(), AllocError>
        ensures { MatchResult result (λ _. seen self.new ≡ seen self.old ++ (name.now ∷ [])) (λ _. seen self.new ≡ seen self.old) }
    {
        self.names.push(name)?;
        Ok(())
    }
}
