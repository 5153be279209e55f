// Bundles by example: what is read, written and refused at each limit.
#![tactic(auto)]

#[cfg(test)]
mod limits;
#[cfg(test)]
mod made;
#[cfg(test)]
mod placed;
#[cfg(test)]
mod refused;
