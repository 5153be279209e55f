// What the parts of a specifier are to lead to, and going back over them from the last to the first.
ghost use Rattle.std.specs.Prelude.{◌≡◌, ◌+◌, ◌*◌, ◌^◌, ◌<◌, ◌≤◌, false, [], ◌∷◌, length, IfSome, codes, Decides};
ghost use Rattle.std.specs.Str.{bytes_eq};
ghost use Rattle.names.specs.Keys.{parts};
ghost use Rattle.host.specs.Paths.{without_last};
ghost use Rattle.host.specs.Goals.{Meets, GoesBack};

use crate::parts::split_last;

// The parts that are no names: an empty one, the directory itself, and the directory above it.
const EMPTY: &[u8] = b"";

const HERE: &[u8] = b".";

const UP: &[u8] = b"..";

// A path with these segments, none if there is no path, and so many more behind them, which are dropped again.
#[derive(Clone, Copy)]
pub(crate) struct Goal<'a> {
    path: Option<&'a [u8]>,
    extra: usize,
}

impl<'a> Goal<'a> {
    // The path itself.
    pub(crate) fn at(path: &'a [u8]) -> Goal<'a>
        ensures { result ≡ record { path = Some path.entry; extra = 0 } }
    {
        Goal {
            path: Some(path),
            extra: 0,
        }
    }

    // Back over a part that is a name.
    fn before_name(self, name: &[u8]) -> Option<Goal<'a>>
        requires not_empty { bytes_eq name.now [] ≡ false }
        requires not_here { bytes_eq name.now (codes ".") ≡ false }
        requires not_up { bytes_eq name.now (codes "..") ≡ false }
        ensures back { GoesBack (name.now ∷ []) self.entry result }
        ensures size { IfSome result (λ h. h.extra ≤ self.entry.extra) }
    {
        if self.extra > 0 {
            return Some(Goal {
                path: self.path,
                extra: self.extra - 1,
            });
        }
        let (front, last) = split_last(self.path?);
        if last != name {
            return None;
        }
        Some(Goal {
            path: front,
            extra: 0,
        })
    }

    // Back over one part.
    fn before_part(self, part: &[u8]) -> Option<Goal<'a>>
        requires { self.extra < 2 ^ 63 }
        ensures back { GoesBack (part.now ∷ []) self.entry result }
        ensures size { IfSome result (λ h. 2 * h.extra ≤ 2 * self.entry.extra + length part.now) }
    {
        match part {
            EMPTY => None,
            HERE => Some(self),
            UP => Some(Goal {
                path: self.path,
                extra: self.extra + 1,
            }),
            _ => self.before_name(part),
        }
    }

    // Back over all parts of a path.
    pub(crate) fn before_path(self, path: &[u8]) -> Option<Goal<'a>>
        requires { 2 * self.extra + length path.now < 2 ^ 64 }
        ensures back { GoesBack (parts path.now) self.entry result }
        ensures size { IfSome result (λ h. 2 * h.extra ≤ 2 * self.entry.extra + length path.now) }
    {
        let mut goal = self;
        for part in path.rsplit(|b| *b == b'/') {
            goal = goal.before_part(part)?;
        }
        Some(goal)
    }

    // Back over the parts of a path's directory.
    pub(crate) fn before_directory(self, path: &[u8]) -> Option<Goal<'a>>
        requires { 2 * self.extra + length path.now < 2 ^ 64 }
        ensures { GoesBack (without_last (parts path.now)) self.entry result }
    {
        match split_last(path).0 {
            Some(directory) => self.before_path(directory),
            None => Some(self),
        }
    }

    // Whether the path without segments meets it.
    pub(crate) fn is_met_at_the_top(self) -> bool
        ensures { Decides result (Meets self.entry []) }
    {
        self.path.is_none() && self.extra == 0
    }
}
