// What the file host and the mapped host answer on examples.
#![tactic(auto)]

#[cfg(test)]
mod file_tests;
#[cfg(test)]
mod mapped_tests;
#[cfg(test)]
mod refused;
