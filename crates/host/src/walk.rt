// Where a specifier leads from a referrer's directory.
ghost use Rattle.std.specs.Prelude.{◌≡◌, [], ◌++◌, Some, Decides};
ghost use Rattle.names.specs.Keys.{parts};
ghost use Rattle.host.specs.Paths.{without_last, walked};

use crate::goal::Goal;

// Whether a specifier leads from a referrer's directory to a target.
pub(crate) fn leads(referrer: &[u8], specifier: &[u8], target: &[u8]) -> bool
    ensures { Decides result (walked [] (without_last (parts referrer.now) ++ parts specifier.now) ≡ Some (parts target.now)) }
{
    Goal::at(target)
        .before_path(specifier)
        .and_then(|goal| goal.before_directory(referrer))
        .is_some_and(|goal| goal.is_met_at_the_top())
}
