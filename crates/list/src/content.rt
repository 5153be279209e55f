// What an entry holds.
ghost use Rattle.std.specs.Prelude.{◌≡◌};
ghost use Rattle.list.specs.Lists.{value};
ghost use Rattle.list.specs.Reading.{content, Decodes, ReadsContent};

use record::Value;

// What stands in the 2 high bits of an entry's first byte. Not the kinds of payloads in a bundle, which number other
// things; so the error is not theirs either.
#[derive(Clone, Copy)]
pub(crate) enum ValueKind {
    Undefined,
    Number,
}

// A number that is no kind of values.
#[derive(Clone, Copy)]
pub(crate) struct UnknownKind;

impl TryFrom<u8> for ValueKind {
    type Error = UnknownKind;

    ghost try_from_gives = { Decodes };

    fn try_from(number: u8) -> Result<ValueKind, UnknownKind> {
        match number {
            0 => Ok(ValueKind::Undefined),
            1 => Ok(ValueKind::Number),
            _ => Err(UnknownKind),
        }
    }
}

// `undefined`, or a number by the eight bytes of its pattern, the highest first.
// No `Option`, as `Value` is none: `undefined` is something that an entry holds.
#[derive(Clone, Copy)]
pub(crate) enum Content {
    Undefined,
    Number([u8; 8]),
}

impl From<Content> for Value {
    ghost from_gives = { λ c r. r ≡ value (content c) };

    fn from(c: Content) -> Value {
        match c {
            Content::Undefined => Value::Undefined,
            Content::Number(pattern) => {
                let bits = u64::from_be_bytes(pattern);
                Value::Number(std::num::f64_from_bits_with_nan(bits))
            }
        }
    }
}

// The content of this kind that stands in front, and the bytes behind it.
pub(crate) fn content_in(kind: ValueKind, bytes: &[u8]) -> Option<(Content, &[u8])>
    ensures { ReadsContent kind bytes.now result }
{
    match kind {
        ValueKind::Undefined => Some((Content::Undefined, bytes)),
        ValueKind::Number => {
            let (pattern, rest) = bytes.split_first_chunk::<8>()?;
            Some((Content::Number(*pattern), rest))
        }
    }
}
