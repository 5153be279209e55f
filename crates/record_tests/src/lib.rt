// The smallest host and the smallest record kind, which show that both traits can be met.
#![tactic(auto)]

mod one_cell;
mod one_key;

pub use one_cell::OneCell;
pub use one_key::OneKey;

#[cfg(test)]
mod outcomes;
#[cfg(test)]
mod tests;
