// The file host: specifiers are paths, from the directory of the module that has them.
ghost use Rattle.std.specs.Prelude.{◌≡◌, IfOk, MatchResult};
ghost use Rattle.names.specs.Keys.{parts};
ghost use Rattle.host.specs.Paths.{relative};
ghost use Rattle.host.specs.Holding.{all_now, Holds, RefusesKeys, EachKeyHasItsNumberAsItsPlace};
ghost use Rattle.host.specs.Held.{held};
ghost use Rattle.host.specs.FileHosts.{file_hosting, FollowsPaths, PlainSpecifiersLeadDown, WaysBetweenHeldKeysAreFound};
ghost use Rattle.host.specs.Lawful.{file_hosting_lawful};

use crate::keys::Keys;
use crate::walk::leads;
use record::{Denial, Host};
use std::alloc::Global;

// Whether a specifier begins with `./` or `../`.
fn is_relative(specifier: &[u8]) -> bool
    ensures { result ≡ relative (parts specifier.now) }
{
    specifier.starts_with(b"./") || specifier.starts_with(b"../")
}

// A host of these keys, the first at place 0.
#[derive(Drop)]
pub struct FileHost<'a> {
    keys: Keys<'a>,
}

impl<'a> FileHost<'a> {
    pub fn new(heap: Global, keys: &[&'a [u8]]) -> Result<FileHost<'a>, Denial>
        ensures makes { MatchResult result (λ h. Holds (all_now keys.now) (held h.keys)) (RefusesKeys (all_now keys.now)) }
        ensures places { IfOk result (λ h. EachKeyHasItsNumberAsItsPlace (all_now keys.now) (file_hosting (held h.keys)).seek) }
        ensures follows { IfOk result (λ h. FollowsPaths (file_hosting (held h.keys))) }
        ensures plain { IfOk result (λ h. PlainSpecifiersLeadDown (file_hosting (held h.keys))) }
        ensures ways { IfOk result (λ h. WaysBetweenHeldKeysAreFound (file_hosting (held h.keys))) }
    {
        let keys = Keys::new(heap, keys)?;
        Ok(FileHost { keys })
    }
}

impl<'a> Host for FileHost<'a> {
    ghost meaning = { λ h. file_hosting (held h.keys) };

    ghost lawful = { λ h. file_hosting_lawful (held h.keys) h.keys.ok };

    fn seek(&self, key: &[u8]) -> Option<usize> {
        self.keys.place_of(key)
    }

    fn follow(&self, place: usize, specifier: &[u8]) -> Option<usize> {
        let referrer = self.keys.at(place)?;
        if !is_relative(specifier) {
            return None;
        }
        self.keys
            .names
            .iter()
            .position(|k| leads(referrer, specifier, k))
    }
}
