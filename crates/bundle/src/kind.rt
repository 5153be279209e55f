// The kinds of payloads, with their numbers and their words.
ghost use Rattle.std.specs.Prelude.{◌≡◌, ◌*◌, Some};
ghost use Rattle.std.specs.Result.{result_ok};
ghost use Rattle.bundle.specs.Format.{kind_number, kind_of};
ghost use Rattle.bundle.specs.Kinds.{kind_word, NamesKind};

use std::fmt;
use std::str::FromStr;

// What a payload is.
#[derive(Clone, Copy)]
pub enum PayloadKind {
    // a module's source text
    Text,
    // a synthetic list
    List,
}

// A number or a word that stands for no kind of payloads.
#[derive(Clone, Copy)]
pub struct UnknownKind;

// By a `match`, so that the numbers do not hang on the order of the cases.
impl From<PayloadKind> for u8 {
    ghost from_gives = { λ kind n. n ≡ kind_number kind };

    fn from(kind: PayloadKind) -> u8 {
        match kind {
            PayloadKind::Text => 0,
            PayloadKind::List => 1,
        }
    }
}

// From the number that the top two bits of an entry's first byte are.
impl TryFrom<u8> for PayloadKind {
    type Error = UnknownKind;

    ghost try_from_gives = { λ n r. result_ok r ≡ kind_of (64 * n) };

    fn try_from(number: u8) -> Result<PayloadKind, UnknownKind> {
        match number {
            0 => Ok(PayloadKind::Text),
            1 => Ok(PayloadKind::List),
            _ => Err(UnknownKind),
        }
    }
}

impl fmt::Display for PayloadKind {
    ghost output = { λ k. Some (kind_word k) };

    fn fmt<W: fmt::Write>(&self, f: &mut fmt::Formatter<W>) -> fmt::Result {
        f.write_str(match self {
            PayloadKind::Text => "text",
            PayloadKind::List => "list",
        })
    }
}

impl FromStr for PayloadKind {
    type Err = UnknownKind;

    ghost from_str_gives = { λ w r. NamesKind w (result_ok r) };

    fn from_str(word: &str) -> Result<PayloadKind, UnknownKind> {
        match word {
            "text" => Ok(PayloadKind::Text),
            "list" => Ok(PayloadKind::List),
            _ => Err(UnknownKind),
        }
    }
}
