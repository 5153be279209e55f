// Records of modules, what refuses them, and the hosts and kinds that they come from.
#![tactic(auto)]

mod cells;
mod denial;
mod host;
mod kind;
mod memory;
mod module;
mod show;
mod value;

pub use cells::Cells;
pub use denial::{Cause, Denial, LoadFault};
pub use host::Host;
pub use kind::Kind;
pub use module::{
    CellEntry, ImportEntry, IndirectExport, LocalExport, Record, Request, StarExport,
};
pub use value::{Cell, Fault, FaultCause, Value};
