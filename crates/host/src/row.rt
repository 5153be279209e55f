// Rows of the mapped host.
ghost use Rattle.std.specs.Prelude.{◌≡◌};
ghost use Rattle.outcome.specs.Joining.{valued};
ghost use Rattle.host.specs.MappedHosts.{plain, says, good_row};

use names::is_key;
use outcome::Outcome;

// In the module with the referrer's key, the specifier leads to the target's key.
#[derive(Clone, Copy)]
pub struct Row<'a> {
    pub referrer: &'a [u8],
    pub specifier: &'a [u8],
    pub target: &'a [u8],
}

impl<'a> Row<'a> {
    // Whether its referrer and its target are keys.
    pub(crate) fn is_good(&self) -> bool
        ensures { result ≡ good_row (plain self.now) }
    {
        is_key(self.referrer) && is_key(self.target)
    }

    // What it says of a referrer and a specifier: its target, if both are its own.
    pub(crate) fn says(&self, referrer: &[u8], specifier: &[u8]) -> Outcome<&'a [u8]>
        ensures { valued (λ x. x.now) result ≡ says referrer.now specifier.now (plain self.now) }
    {
        if self.referrer == referrer && self.specifier == specifier {
            Outcome::One(self.target)
        } else {
            Outcome::Nothing
        }
    }
}
