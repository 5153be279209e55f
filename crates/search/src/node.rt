// The nodes of a graph.
ghost use Rattle.std.specs.Prelude.{◌≡◌, ◌<◌, ◌≤◌, MatchOption};

/// A node of a graph: a number below 32.
#[derive(Clone, Copy, PartialEq, Eq)]
pub struct Node {
    value: u8,
    ghost below: { value < 32 },
}

// `new` and `number` are like `new` and `get` of `NonZero`: conversions beside them would say the same twice.
impl Node {
    /// The node of this number, if it is below 32.
    pub fn new(number: usize) -> Option<Node>
        ensures { MatchOption result (32 ≤ number) (λ x. x.value ≡ number) }
    {
        if number < 32 {
            // A number below 32 fits, so nothing is lost by `as`.
            Some(Node {
                value: number as u8,
            })
        } else {
            None
        }
    }

    /// The number of the node.
    pub fn number(self) -> usize
        ensures value { result ≡ self.value }
        ensures bound { result < 32 }
    {
        usize::from(self.value)
    }
}

/// The node 0.
impl Default for Node {
    ghost is_default = { λ x. x.value ≡ 0 };

    fn default() -> Node {
        Node { value: 0 }
    }
}
