// A mark for each node, or what stands for one.
ghost use Rattle.std.specs.Prelude.{◌≡◌, ℕ, slice_index_or};
ghost use Rattle.search.specs.Search.{put};

use search::{Mark, Node};

/// The mark that stands at the node.
pub fn look<M: Copy + Into<Mark>>(marks: &[M; 32], node: Node) -> Mark
    ensures { (d : M) → M.converts (slice_index_or marks.now node.value d) result }
{
    marks[node.number()].into()
}

/// Puts a mark, or what stands for one, at the node.
pub fn mark<M: Copy>(marks: &mut [M; 32], node: Node, mark: M)
    ensures { (d : M) (x : ℕ) → slice_index_or marks.new x d ≡ put (λ y. slice_index_or marks.old y d) node.value mark x }
{
    marks[node.number()] = mark;
}
