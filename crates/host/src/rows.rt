// Which rows a mapped host can have, and what they say.
ghost use Rattle.std.specs.Prelude.{◌≡◌, ℕ, true, map, MatchResult};
ghost use Rattle.std.specs.Str.{bytes_eq};
ghost use Rattle.record.specs.Denials.{malformed_at};
ghost use Rattle.outcome.specs.Joining.{joined_all, valued};
ghost use Rattle.host.specs.MappedHosts.{plain, plain_all, says, good_rows, bad_row_behind, FirstBadRow};

use crate::row::Row;
use outcome::{Outcome, join};
use record::Denial;

// A mapped host has at most so many rows.
const MAX_ROWS: usize = 64;

// Whether a row may not stand behind others: they are 64, or a key of it is malformed.
fn is_bad_behind(before: &[Row<'_>], row: &Row<'_>) -> bool
    ensures { result ≡ bad_row_behind (plain_all before.now) (plain row.now) }
{
    before.len() >= MAX_ROWS || !row.is_good()
}

// Refuses rows that a mapped host cannot have, at the number of the first bad one. Beside `check_keys`: one for both would
// take the test as a closure, and its contract would have to say what that answers, which is longer than both bodies.
pub(crate) fn check_rows(rows: &[Row<'_>]) -> Result<(), Denial>
    ensures { MatchResult result (λ _. good_rows (plain_all rows.now) ≡ true) (λ d. (n : ℕ) × (d ≡ malformed_at n) × FirstBadRow (plain_all rows.now) n) }
{
    match rows
        .iter()
        .enumerate()
        .position(|(i, row)| is_bad_behind(&rows[..i], row))
    {
        Some(n) => Err(Denial::malformed(n)),
        None => Ok(()),
    }
}

// What all rows say, joined.
// The referrer and the specifier stay two parameters: a struct of both would be made at one call of each host, and only to be taken apart in `says` and `leads`.
pub(crate) fn said_by_all<'a>(
    rows: &[Row<'a>],
    referrer: &[u8],
    specifier: &[u8],
) -> Outcome<&'a [u8]>
    ensures { valued (λ x. x.now) result ≡ joined_all bytes_eq (map (says referrer.now specifier.now) (plain_all rows.now)) }
{
    rows.iter()
        .map(|row| row.says(referrer, specifier))
        .fold(Outcome::Nothing, join)
}
