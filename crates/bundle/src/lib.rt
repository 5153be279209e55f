// Bundles: the modules of a depot, packed into one byte string.
#![tactic(auto)]

mod entry;
mod kind;
mod reader;
mod writer;

pub use entry::Entry;
pub use kind::{PayloadKind, UnknownKind};
pub use reader::read;
pub use writer::write;
