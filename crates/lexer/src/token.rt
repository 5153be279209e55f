// Tokens.

// What a token is. Words, strings and numbers borrow their bytes from the text: a string those between its quotes.
#[derive(Clone, Copy)]
pub enum Token<'a> {
    Word(&'a [u8]),
    Text(&'a [u8]),
    Number(&'a [u8]),
    // a byte as it stands in the text
    Mark(u8),
    // no token begins like this, or it does not end as it should: a token and no error, since the grammar refuses it as
    // it does any misplaced token
    Malformed,
    // the text's end
    End,
}

// A token, its first byte, and the byte behind it.
#[derive(Clone, Copy)]
pub struct Lexeme<'a> {
    pub token: Token<'a>,
    pub start: usize,
    pub end: usize,
}
