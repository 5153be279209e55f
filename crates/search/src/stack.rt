// The stack that a caller lends to a search.
ghost use Rattle.std.specs.Prelude.{◌≡◌, ◌<◌, ◌==◌, length};
ghost use Rattle.search.specs.Stacks.{blank, visit_at, pushed, lowered, popped, newest};

use crate::node::Node;
use arrayvec::ArrayVec;

/// What a search knows of a node that it has met.
#[derive(Clone, Copy)]
struct Visit {
    index: u8,
    low: u8,
}

/// The indices and low marks of the nodes, and the nodes on the stack. All of a fixed size, since no search allocates.
/// `next` is how many nodes were met; no list has that length, since nodes are popped.
#[derive(Drop)]
pub struct Stack {
    visits: [Visit; 32],
    nodes: ArrayVec<Node, 32>,
    next: u8,
}

impl Stack {
    /// A blank stack.
    pub fn new() -> Stack
        ensures { result ≡ blank }
    {
        Stack {
            visits: [Visit { index: 0, low: 0 }; 32],
            nodes: ArrayVec::new(),
            next: 0,
        }
    }

    /// The node takes the next index as its index and its low mark, and goes on the stack.
    pub(crate) fn push(&mut self, node: Node)
        requires room { length self.old.nodes.items < 32 }
        requires index { self.old.next < 32 }
        ensures visits { length self.old.visits ≡ 32 }
        ensures after { self.new ≡ pushed self.old node }
    {
        self.visits[node.number()] = Visit {
            index: self.next,
            low: self.next,
        };
        self.nodes.push(node);
        self.next += 1;
    }

    /// The low mark of `node` becomes the smaller of its own and that of `other`.
    pub(crate) fn lower(&mut self, node: Node, other: Node)
        ensures visits { length self.old.visits ≡ 32 }
        ensures after { self.new ≡ lowered self.old node.value other.value }
    {
        let low = self.visits[other.number()].low;
        let visit = &mut self.visits[node.number()];
        visit.low = visit.low.min(low);
    }

    /// Whether the low mark of the node is its index.
    pub(crate) fn is_lowest(&self, node: Node) -> bool
        ensures { result ≡ ((visit_at self.now node.value).low == (visit_at self.now node.value).index) }
    {
        let visit = self.visits[node.number()];
        visit.low == visit.index
    }

    /// Takes the newest node off, if there is one.
    pub(crate) fn pop(&mut self) -> Option<Node>
        ensures after { self.new ≡ popped self.old }
        ensures value { result ≡ newest self.old }
    {
        self.nodes.pop()
    }
}
