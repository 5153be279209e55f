// Entries written one behind another: what lists and bundles have in common.
#![tactic(auto)]

mod encoded;
mod fault;
mod placed;
mod reader;
mod seen;
mod stop;

pub use encoded::Encoded;
pub use fault::Fault;
pub use placed::Placed;
pub use reader::{read, read_as};
pub use seen::Seen;
pub use stop::Stop;
