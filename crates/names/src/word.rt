// Words: a letter, `_` or `$`, and then these or digits.
ghost use Rattle.std.specs.Prelude.{◌≡◌};
ghost use Rattle.names.specs.Words.{letter, letter_or_digit, word};

fn is_letter(b: u8) -> bool
    ensures { result ≡ letter b }
{
    matches!(b, b'a'..=b'z' | b'A'..=b'Z' | b'_' | b'$')
}

fn is_letter_or_digit(b: u8) -> bool
    ensures { result ≡ letter_or_digit b }
{
    is_letter(b) || b.is_ascii_digit()
}

pub fn is_word(bytes: &[u8]) -> bool
    ensures { result ≡ word bytes.now }
{
    match bytes {
        [] => false,
        [first, rest @ ..] => is_letter(*first) && rest.iter().all(|b| is_letter_or_digit(*b)),
    }
}
