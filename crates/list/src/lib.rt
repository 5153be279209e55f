// Synthetic lists: a value kind, a name and a value for each entry, which are read as a module's record with its values.
#![tactic(auto)]

mod content;
mod entry;
mod module;
mod reader;

pub use module::SyntheticModule;
pub use reader::read;
