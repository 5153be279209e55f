// Two walks over a fixed graph, searched.
#![tactic(auto, unfolding(search::specs::Search::put))]

ghost use Rattle.search_tests.specs.Example.{NestedCyclesArePoppedTogether};
ghost use Rattle.search_tests.specs.Walks.{EachReachedNodeIsCountedOnce, FailsAt};

mod counting;
mod failing;
mod graph;
mod marks;

pub use counting::{Counting, Stage};
pub use failing::{Failed, Failing};
use search::{Mark, Node, Stack, search};

/// Counts each node that the root reaches.
pub fn count(root: Node) -> [u8; 32]
    ensures { EachReachedNodeIsCountedOnce root.value result }
{
    let mut walk = Counting {
        stages: [Stage::New; 32],
        counts: [0; 32],
    };
    let mut stack = Stack::new();
    match search(&mut walk, &mut stack, root) {
        Ok(()) => walk.counts,
        Err(never) => match never {},
    }
}

/// Searches from `root` over lent marks, with an action that fails at `at`.
pub fn fail(marks: &mut [Mark; 32], at: Node, root: Node) -> Result<(), Failed>
    ensures { FailsAt at.value root.value marks.old marks.new result }
{
    let mut walk = Failing {
        marks: &mut *marks,
        at,
    };
    let mut stack = Stack::new();
    search(&mut walk, &mut stack, root)
}

/// The search of the fixed graph from 0, computed.
pub fn example()
    ensures { NestedCyclesArePoppedTogether }
{}

#[cfg(test)]
mod tests {
    use crate::{Counting, Stage, count, fail};
    use search::{Mark, Node, Stack, search};
    use std::test::Fail;

    #[test]
    fn each_node_is_counted_once(rt: HostRuntime) -> Result<(), Fail> {
        let root = Node::new(0).ok_or("no node 0")?;
        let counts = count(root);
        assert!(rt; counts[0] == 1 && counts[3] == 1);
        assert!(rt; counts[5] == 1 && counts[6] == 0);
        Ok(())
    }

    #[test]
    fn what_is_counted_is_not_counted_again(rt: HostRuntime) -> Result<(), Fail> {
        let root = Node::new(4).ok_or("no node 4")?;
        let mut walk = Counting {
            stages: [Stage::Counted; 32],
            counts: [7; 32],
        };
        let mut stack = Stack::new();
        let _ = search(&mut walk, &mut stack, root);
        assert!(rt; walk.counts[4] == 7);
        Ok(())
    }

    #[test]
    fn a_failure_leaves_its_cycle_open(rt: HostRuntime) -> Result<(), Fail> {
        let mut marks = [Mark::Fresh; 32];
        let root = Node::new(0).ok_or("no node 0")?;
        let at = Node::new(3).ok_or("no node 3")?;
        let failed = fail(&mut marks, at, root).err().ok_or("no failure")?;
        assert!(rt; failed.at == 3);
        assert!(rt; marks[0] == Mark::Open && marks[3] == Mark::Open);
        assert!(rt; marks[5] == Mark::Closed && marks[6] == Mark::Fresh);
        Ok(())
    }

    #[test]
    fn a_spoilt_node_hands_its_failure_on(rt: HostRuntime) -> Result<(), Fail> {
        let mut marks = [Mark::Fresh; 32];
        marks[3] = Mark::Spoilt;
        let root = Node::new(1).ok_or("no node 1")?;
        let at = Node::new(3).ok_or("no node 3")?;
        let failed = fail(&mut marks, at, root).err().ok_or("no failure")?;
        assert!(rt; failed.at == 3);
        assert!(rt; marks[2] == Mark::Open && marks[3] == Mark::Spoilt);
        Ok(())
    }
}
