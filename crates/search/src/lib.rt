// A depth-first search for the cycles of a graph, for every graph of 32 nodes and every action.
#![tactic(auto)]

ghost use Rattle.std.specs.Prelude.{◌≡◌};
ghost use Rattle.search.specs.Search.{begin, Ends};
ghost use Rattle.search.specs.Laws.{Lawful};
ghost use Rattle.search.specs.Running.{RunsAreSearches, RunsComputeIt};
ghost use Rattle.search.specs.Stacks.{shown};

mod mark;
mod node;
mod searching;
mod stack;
mod walk;

pub use mark::Mark;
pub use node::Node;
use searching::Searching;
pub use stack::Stack;
pub use walk::Walk;

/// Searches all that `root` reaches: each new node once, and the nodes of a cycle are finished together. The stack is
/// made blank first.
pub fn search<W: Walk>(walk: &mut W, stack: &mut Stack, root: Node) -> Result<(), W::Fault>
    ensures fixed { W.fixed walk.new ≡ W.fixed walk.old }
    ensures does { Ends (W.arrows (W.fixed walk.old)) (W.deeds (W.fixed walk.old)) (begin (W.marks walk.old)) (W.state walk.old) root.value (shown (W.marks walk.new) stack.new) (W.state walk.new) result }
    ensures laws { Lawful (W.arrows (W.fixed walk.old)) (W.deeds (W.fixed walk.old)) (begin (W.marks walk.old)) (W.state walk.old) root.value (shown (W.marks walk.new) stack.new) (W.state walk.new) result }
    ensures computes { RunsComputeIt (W.arrows (W.fixed walk.old)) (W.deeds (W.fixed walk.old)) (begin (W.marks walk.old)) (W.state walk.old) root.value (shown (W.marks walk.new) stack.new) (W.state walk.new) result }
{
    *stack = Stack::new();
    let mut searching = Searching { walk, stack };
    searching.visit(root)
}

/// Each run of the search as a function is a search.
pub fn runs_are_searches<W: Walk>()
    ensures { RunsAreSearches W.State W.Fault }
{}
