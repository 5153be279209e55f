// Hosts: where keys and specifiers lead.
#![tactic(auto)]

mod file_host;
mod goal;
mod keys;
mod mapped_host;
mod misplaced;
mod parts;
mod row;
mod rows;
mod walk;

pub use file_host::FileHost;
pub use mapped_host::MappedHost;
pub use row::Row;
