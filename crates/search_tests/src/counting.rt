// A walk whose action counts its node.
ghost use Rattle.std.specs.Prelude.{◌≡◌, ℕ, List, slice_index_or};
ghost use Rattle.search_tests.specs.Walks.{cycles, counting, marking};
ghost use Rattle.search_tests.specs.declared.counting.Stage.TheVariants.{New};

use crate::graph::arrow;
use crate::marks::{look, mark};
use search::{Mark, Node, Walk};
use std::convert::Infallible;

/// How far a count has come with a node.
#[derive(Clone, Copy, PartialEq, Eq)]
pub enum Stage {
    New,
    Going,
    Counted,
}

/// Two arrays and not one of pairs: `count` answers the counts alone.
#[derive(Drop)]
pub struct Counting {
    pub stages: [Stage; 32],
    pub counts: [u8; 32],
}

/// What a stage stands for.
impl From<Stage> for Mark {
    ghost from_gives = { λ stage mark. mark ≡ marking stage };

    fn from(stage: Stage) -> Mark {
        match stage {
            Stage::New => Mark::Fresh,
            Stage::Going => Mark::Open,
            Stage::Counted => Mark::Closed,
        }
    }
}

impl Walk for Counting {
    type Fault = Infallible;

    ghost Fixed = { Unit {0} };

    ghost fixed = { λ w. tt };

    ghost State = { List ℕ };

    ghost state = { λ w. w.counts };

    ghost marks = { λ w x. marking (slice_index_or w.stages x New) };

    ghost arrows = { λ k. cycles };

    ghost deeds = { λ k. counting };

    fn arrow(&self, node: Node, i: usize) -> Option<Node> {
        arrow(node, i)
    }

    fn meet(&self, node: Node) -> Result<Mark, Infallible> {
        Ok(look(&self.stages, node))
    }

    fn look(&self, node: Node) -> Mark {
        look(&self.stages, node)
    }

    fn open(&mut self, node: Node) {
        mark(&mut self.stages, node, Stage::Going);
    }

    fn act(&mut self, node: Node) -> Result<(), Infallible> {
        let v = node.number();
        self.counts[v] = self.counts[v].wrapping_add(1);
        Ok(())
    }

    fn close(&mut self, node: Node, _root: Node) {
        mark(&mut self.stages, node, Stage::Counted);
    }
}
