// Cuts a module's text into tokens that borrow it.
#![tactic(auto)]

mod token;

pub use token::{Lexeme, Token};
