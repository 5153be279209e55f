// One entry of a list.
ghost use Rattle.list.specs.Lists.{Entry as ListEntry, list_format};
ghost use Rattle.list.specs.Reading.{entry};

use crate::content::{Content, ValueKind, content_in};
use entries::Encoded;
use names::is_word;

// A name has at most this many bytes.
const LONGEST_NAME: usize = 31;

// A name with what it holds.
#[derive(Clone, Copy)]
pub(crate) struct Entry<'a> {
    pub name: &'a [u8],
    pub content: Content,
}

impl<'a> Encoded<'a> for Entry<'a> {
    ghost Contents = { ListEntry };

    ghost contents = { entry };

    ghost format = { list_format };

    fn first(bytes: &'a [u8]) -> Option<(Entry<'a>, &'a [u8])> {
        let (head, behind) = bytes.split_first()?;
        let length = usize::from(*head % 64);
        if length > LONGEST_NAME {
            return None;
        }
        let (name, behind) = behind.split_at_checked(length)?;
        if !is_word(name) {
            return None;
        }
        let kind = ValueKind::try_from(*head / 64).ok()?;
        let (content, rest) = content_in(kind, behind)?;
        Some((Entry { name, content }, rest))
    }

    fn name(&self) -> &'a [u8] {
        self.name
    }
}
