// The keys that a host holds.
ghost use Rattle.std.specs.Prelude.{◌≡◌, true, MatchResult};
ghost use Rattle.std.specs.List.{slice_get};
ghost use Rattle.std.specs.Option.{option_map};
ghost use Rattle.host.specs.Holding.{all_now, place_of, holdable, Holds, RefusesKeys};

use crate::misplaced::check_keys;
use record::Denial;
use std::alloc::Global;

// Keys in their places, the first at place 0.
#[derive(Drop)]
pub(crate) struct Keys<'a> {
    pub(crate) names: Vec<&'a [u8]>,
    ghost ok: { holdable (all_now names.items) ≡ true },
}

impl<'a> Keys<'a> {
    // A copy of the keys, if a host can hold them.
    pub(crate) fn new(heap: Global, keys: &[&'a [u8]]) -> Result<Keys<'a>, Denial>
        ensures { MatchResult result (λ k. Holds (all_now keys.now) (all_now k.names.items)) (RefusesKeys (all_now keys.now)) }
    {
        check_keys(keys)?;
        let names = Vec::from_slice(heap, keys)?;
        Ok(Keys { names })
    }

    // The place of a key, if it is held.
    pub(crate) fn place_of(&self, key: &[u8]) -> Option<usize>
        ensures { result ≡ place_of (all_now self.now.names.items) key.now }
    {
        self.names.iter().position(|k| *k == key)
    }

    // The key at a place, if there is one.
    pub(crate) fn at(&self, place: usize) -> Option<&'a [u8]>
        ensures { option_map (λ x. x.now) result ≡ slice_get (all_now self.now.names.items) place }
    {
        self.names.get(place).copied()
    }
}
