// How far a search has come with a node.

/// The mark of a node.
#[derive(Clone, Copy, PartialEq, Eq)]
pub enum Mark {
    /// New: not yet searched.
    Fresh,
    /// Being searched: on the stack.
    Open,
    /// Finished, with all that it reaches.
    Closed,
    /// Ended by a fault, which it hands on.
    Spoilt,
}
