// Which keys a host can hold.
ghost use Rattle.std.specs.Prelude.{◌≡◌, ℕ, true, MatchResult};
ghost use Rattle.record.specs.Denials.{malformed_at};
ghost use Rattle.host.specs.Holding.{all_now, holdable, misplaced, FirstMisplaced};

use names::is_key;
use record::Denial;

// A host holds at most so many keys.
const MAX_KEYS: usize = 32;

// Whether a name may not stand behind others: they are 32, or it is no key, or it is one of them.
// By `any`, which is compiled in place: `contains` is a call for each list, of twice the work on short names.
fn is_misplaced(before: &[&[u8]], name: &[u8]) -> bool
    ensures { result ≡ misplaced (all_now before.now) name.now }
{
    before.len() >= MAX_KEYS || !is_key(name) || before.iter().any(|key| *key == name)
}

// Refuses keys that a host cannot hold, at the number of the first that is misplaced.
pub(crate) fn check_keys(keys: &[&[u8]]) -> Result<(), Denial>
    ensures { MatchResult result (λ _. holdable (all_now keys.now) ≡ true) (λ d. (n : ℕ) × (d ≡ malformed_at n) × FirstMisplaced (all_now keys.now) n) }
{
    match keys
        .iter()
        .enumerate()
        .position(|(i, key)| is_misplaced(&keys[..i], key))
    {
        Some(n) => Err(Denial::malformed(n)),
        None => Ok(()),
    }
}
