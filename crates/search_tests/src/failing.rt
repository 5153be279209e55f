// A walk over lent marks, whose action fails at one node.
ghost use Rattle.std.specs.Prelude.{ℕ, slice_index_or};
ghost use Rattle.search.specs.declared.mark.Mark.TheVariants.{Fresh};
ghost use Rattle.search_tests.specs.Walks.{cycles, failing};

use crate::graph::arrow;
use crate::marks::{look, mark};
use search::{Mark, Node, Walk};

/// The node whose action failed.
#[derive(Clone, Copy)]
pub struct Failed {
    pub at: usize,
}

#[derive(Drop)]
pub struct Failing<'a> {
    pub marks: &'a mut [Mark; 32],
    pub at: Node,
}

impl Walk for Failing<'_> {
    type Fault = Failed;

    ghost Fixed = { ℕ × ℕ };

    ghost fixed = { λ w. (w.marks.ghost_name, w.at.value) };

    ghost State = { Unit {0} };

    ghost state = { λ w. tt };

    ghost marks = { λ w x. slice_index_or w.marks.now x Fresh };

    ghost arrows = { λ k. cycles };

    ghost deeds = { λ k. failing k.1 };

    fn arrow(&self, node: Node, i: usize) -> Option<Node> {
        arrow(node, i)
    }

    fn meet(&self, node: Node) -> Result<Mark, Failed> {
        match look(self.marks, node) {
            Mark::Spoilt => Err(Failed {
                at: self.at.number(),
            }),
            mark => Ok(mark),
        }
    }

    fn look(&self, node: Node) -> Mark {
        look(self.marks, node)
    }

    fn open(&mut self, node: Node) {
        mark(self.marks, node, Mark::Open);
    }

    fn act(&mut self, node: Node) -> Result<(), Failed> {
        if node == self.at {
            Err(Failed { at: node.number() })
        } else {
            Ok(())
        }
    }

    fn close(&mut self, node: Node, _root: Node) {
        mark(self.marks, node, Mark::Closed);
    }
}
