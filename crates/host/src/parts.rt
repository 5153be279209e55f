// Paths that come apart at their last `/`.
ghost use Rattle.std.specs.Option.{option_map};
ghost use Rattle.host.specs.Goals.{SplitsLast};

// What stands before the last `/` of a path, if there is one, and the part behind it.
pub(crate) fn split_last(path: &[u8]) -> (Option<&[u8]>, &[u8])
    ensures { SplitsLast path.now (option_map (λ x. x.now) result.0) result.1.now }
{
    match path.iter().rposition(|b| *b == b'/') {
        Some(i) => (Some(&path[..i]), &path[i + 1..]),
        None => (None, path),
    }
}
