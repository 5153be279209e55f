// The mapped host: rows say where a specifier leads from a referrer.
ghost use Rattle.std.specs.Prelude.{IfOk, MatchResult};
ghost use Rattle.host.specs.Holding.{all_now, EachKeyHasItsNumberAsItsPlace};
ghost use Rattle.host.specs.Held.{held};
ghost use Rattle.host.specs.MappedHosts.{plain_all, mapped_hosting, Maps, RefusesToMap, FollowsRows, OrderOfRowsAndRowsWrittenTwiceDoNotAffectAnAnswer};
ghost use Rattle.host.specs.Lawful.{mapped_hosting_lawful};

use crate::keys::Keys;
use crate::row::Row;
use crate::rows::{check_rows, said_by_all};
use outcome::Outcome;
use record::{Denial, Host};
use std::alloc::Global;

// A host of these keys, the first at place 0, and of these rows.
#[derive(Drop)]
pub struct MappedHost<'a> {
    keys: Keys<'a>,
    rows: Vec<Row<'a>>,
}

impl<'a> MappedHost<'a> {
    pub fn new(heap: Global, keys: &[&'a [u8]], rows: &[Row<'a>]) -> Result<MappedHost<'a>, Denial>
        ensures makes { MatchResult result (λ h. Maps (all_now keys.now) (plain_all rows.now) (held h.keys) (plain_all h.rows.items)) (RefusesToMap (all_now keys.now) (plain_all rows.now)) }
        ensures places { IfOk result (λ h. EachKeyHasItsNumberAsItsPlace (all_now keys.now) (mapped_hosting (held h.keys) (plain_all h.rows.items)).seek) }
        ensures follows { IfOk result (λ h. FollowsRows (plain_all rows.now) (mapped_hosting (held h.keys) (plain_all h.rows.items))) }
        ensures order { IfOk result (λ h. OrderOfRowsAndRowsWrittenTwiceDoNotAffectAnAnswer (held h.keys) (plain_all h.rows.items)) }
    {
        let keys = Keys::new(heap, keys)?;
        check_rows(rows)?;
        let rows = Vec::from_slice(heap, rows)?;
        Ok(MappedHost { keys, rows })
    }
}

impl<'a> Host for MappedHost<'a> {
    ghost meaning = { λ h. mapped_hosting (held h.keys) (plain_all h.rows.items) };

    ghost lawful = { λ h. mapped_hosting_lawful (held h.keys) h.keys.ok (plain_all h.rows.items) };

    fn seek(&self, key: &[u8]) -> Option<usize> {
        self.keys.place_of(key)
    }

    fn follow(&self, place: usize, specifier: &[u8]) -> Option<usize> {
        let referrer = self.keys.at(place)?;
        match said_by_all(self.rows.as_slice(), referrer, specifier) {
            Outcome::One(target) => self.keys.place_of(target),
            Outcome::Nothing | Outcome::Several => None,
        }
    }
}
