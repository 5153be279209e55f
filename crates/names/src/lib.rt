// Names as bytes: words, and keys with their segments.
#![tactic(auto)]

mod key;
mod name;
mod word;

pub use key::{is_key, split_segment};
pub use name::{Name, Shown, same_name};
pub use word::is_word;
