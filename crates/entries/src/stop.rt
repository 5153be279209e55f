// Why a byte string is refused at an entry.
#[derive(Clone, Copy)]
pub enum Stop {
    // no well-formed entry begins there
    Malformed,
    // it is the 33rd
    TooMany,
    // an earlier one has its name
    Repeated,
}
