// A fixed graph: a cycle of four nodes with a smaller one inside it, and a cycle of two that it leads to.
ghost use Rattle.std.specs.Prelude.{◌≡◌, ◌+◌, ◌^◌, ◌<◌, Some, slice_get};
ghost use Rattle.std.specs.Option.{option_map};
ghost use Rattle.search.specs.declared.node.Node.{Node};
ghost use Rattle.search_tests.specs.Walks.{cycles};

use search::Node;

/// Where the arrows of the node lead; by a `match`, since most nodes have none.
fn arrows(node: Node) -> &'static [usize]
    ensures { result.now ≡ cycles node.value }
{
    match node.number() {
        0 => &[1],
        1 => &[2],
        2 => &[1, 3],
        3 => &[0, 4],
        4 => &[5],
        5 => &[4],
        _ => &[],
    }
}

pub fn arrow(node: Node, i: usize) -> Option<Node>
    ensures is { option_map (λ (x : Node). x.value) result ≡ slice_get (cycles node.value) i }
    ensures few { (x : Node) → result ≡ Some x → i + 1 < 2 ^ 64 }
{
    Node::new(*arrows(node).get(i)?)
}
