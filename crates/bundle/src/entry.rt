// The entries of a bundle: one for each module.
ghost use Rattle.std.specs.Prelude.{◌≡◌};
ghost use Rattle.bundle.specs.Format.{Entry as BundleEntry, format, plain};

use crate::kind::PayloadKind;
use entries::{Encoded, Placed};
use names::is_key;

// A module of a bundle: its key, and its payload.
#[derive(Clone, Copy)]
pub struct Entry<'a> {
    pub kind: PayloadKind,
    pub key: &'a [u8],
    pub payload: &'a [u8],
}

// A bundle's entries are kept without their bytes.
impl<'a> From<Placed<Entry<'a>>> for Entry<'a> {
    ghost from_gives = { λ placed e. e ≡ placed.entry };

    fn from(placed: Placed<Entry<'a>>) -> Entry<'a> {
        placed.entry
    }
}

impl<'a> Encoded<'a> for Entry<'a> {
    ghost Contents = { BundleEntry };

    ghost contents = { plain };

    ghost format = { format };

    fn first(bytes: &'a [u8]) -> Option<(Entry<'a>, &'a [u8])> {
        let ([head, high, low], behind) = bytes.split_first_chunk::<3>()?;
        let kind = PayloadKind::try_from(*head / 64).ok()?;
        let (key, behind) = behind.split_at_checked(usize::from(*head % 64))?;
        let size = u16::from_be_bytes([*high, *low]);
        let (payload, rest) = behind.split_at_checked(usize::from(size))?;
        if !is_key(key) {
            return None;
        }
        Some((Entry { kind, key, payload }, rest))
    }

    fn name(&self) -> &'a [u8] {
        self.key
    }
}
