// An entry, with the byte at which it begins.
#[derive(Clone, Copy)]
pub struct Placed<E> {
    pub byte: usize,
    pub entry: E,
}
