// Syntax trees that borrow their names from the text. Expressions have none: a body runs over the text itself.
use record::LoadFault;
use std::vec::Vec;

// A name or a specifier, and the byte at which its token starts.
#[derive(Clone, Copy)]
pub struct Spelt<'a> {
    pub bytes: &'a [u8],
    pub byte: usize,
}

// `W` or `W as W`: for `W` both are the same.
#[derive(Clone, Copy)]
pub struct Entry<'a> {
    pub first: Spelt<'a>,
    pub last: Spelt<'a>,
}

pub enum Form<'a> {
    Imports(Vec<Entry<'a>>, Spelt<'a>),
    Exports(Vec<Entry<'a>>),
    Reexports(Vec<Entry<'a>>, Spelt<'a>),
    // the byte of the `*`
    Star(usize, Spelt<'a>),
    // exported or not: a flag and no `Option`, since the name is there in both
    Declares(bool, Spelt<'a>),
    Throws,
}

// An item, and the byte of its `;`.
pub struct Item<'a> {
    pub form: Form<'a>,
    pub end: usize,
}

// The items of a text, as far as a reader comes, and the byte at which the text ends, or what stops the reader.
pub struct Syntax<'a> {
    pub items: Vec<Item<'a>>,
    pub end: Result<usize, LoadFault>,
}
