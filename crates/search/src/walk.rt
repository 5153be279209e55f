// What a search asks of a graph and of what is done at its nodes.
ghost use Rattle.std.specs.Prelude.{◌≡◌, ℕ, ◌+◌, ◌^◌, ◌<◌, List, Some, MatchResult, ◌≢◌, slice_get};
ghost use Rattle.std.specs.Option.{option_map};
ghost use Rattle.search.specs.declared.mark.Mark.{Mark};
ghost use Rattle.search.specs.declared.mark.Mark.TheVariants.{Fresh, Open, Closed, Spoilt};
ghost use Rattle.search.specs.declared.node.Node.{Node};
ghost use Rattle.search.specs.Search.{Search, put, Deeds};

use crate::mark::Mark;
use crate::node::Node;

/// A graph with a mark at each node, and what is done when a node is searched.
pub trait Walk {
    /// What an action may end in.
    type Fault;

    // What no step changes: the graph, and the names of what the walk borrows.
    ghost Fixed: { Type 0 };

    ghost fixed: { Self → Fixed };

    // What the actions change.
    ghost State: { Type 0 };

    ghost state: { Self → State };

    ghost marks: { Self → ℕ → Mark };

    ghost arrows: { Fixed → ℕ → List ℕ };

    ghost deeds: { Fixed → Deeds State Self.Fault };

    /// Where the arrow at the place `i` of the node leads.
    fn arrow(&self, node: Node, i: usize) -> Option<Node>
        ensures is { option_map (λ (x : Node). x.value) result ≡ slice_get (arrows (fixed self.now) node.value) i }
        ensures few { (x : Node) → result ≡ Some x → i + 1 < 2 ^ 64 };

    /// The mark of the node, or the fault that it carries.
    fn meet(&self, node: Node) -> Result<Mark, Self::Fault>
        ensures { MatchResult result (λ k. (k ≡ marks self.now node.value) × (k ≢ Spoilt)) (λ e. (marks self.now node.value ≡ Spoilt) × ((s : Search) → (deeds (fixed self.now)).holds s (state self.now) node.value e)) };

    /// The mark of the node.
    fn look(&self, node: Node) -> Mark
        ensures { result ≡ marks self.now node.value };

    /// A new node becomes open.
    fn open(&mut self, node: Node)
        ensures fixed { marks self.old node.value ≡ Fresh → fixed self.new ≡ fixed self.old }
        ensures state { marks self.old node.value ≡ Fresh → state self.new ≡ state self.old }
        ensures marks { marks self.old node.value ≡ Fresh → (x : ℕ) → marks self.new x ≡ put (marks self.old) node.value Open x };

    /// The action at the node is done.
    fn act(&mut self, node: Node) -> Result<(), Self::Fault>
        ensures fixed { fixed self.new ≡ fixed self.old }
        ensures does { MatchResult result (λ _. (s : Search) → (deeds (fixed self.old)).acts s (state self.old) node.value (state self.new)) (λ e. (s : Search) → (deeds (fixed self.old)).fails s (state self.old) node.value (state self.new) e) }
        ensures marks { (x : ℕ) → marks self.new x ≡ marks self.old x };

    /// An open node is finished, as one of those that are popped through `root`.
    fn close(&mut self, node: Node, root: Node)
        ensures fixed { marks self.old node.value ≡ Open → fixed self.new ≡ fixed self.old }
        ensures does { marks self.old node.value ≡ Open → (s : Search) → (deeds (fixed self.old)).closes s (state self.old) node.value root.value (state self.new) }
        ensures marks { marks self.old node.value ≡ Open → (x : ℕ) → marks self.new x ≡ put (marks self.old) node.value Closed x };
}
