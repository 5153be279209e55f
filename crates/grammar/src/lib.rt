// The syntax of module texts.
#![tactic(auto)]

mod syntax;

pub use syntax::{Entry, Form, Item, Spelt, Syntax};
