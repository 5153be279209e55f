// A search under way.
ghost use Rattle.std.specs.Prelude.{◌≡◌};
ghost use mathlib.Core.List.{Memᴰ};
ghost use Rattle.search.specs.Search.{enter as entered, lower, down_to, close, Finishes, Ends};
ghost use Rattle.search.specs.Stacks.{shown, Room, Stacked, Stacked-prop};
ghost use Rattle.search.specs.declared.mark.Mark.TheVariants.{Fresh};

use crate::{Mark, Node, Stack, Walk};

/// A walk, and the stack that shows how far its search has come. Every method leaves
/// which walk and which stack these are; it says so itself, since a fact of the type can't speak of before and after.
/// What both show is written out in each clause: a name for it would have to be given the marks of the walk as well.
#[derive(Drop)]
pub(crate) struct Searching<'a, W: Walk> {
    pub(crate) walk: &'a mut W,
    pub(crate) stack: &'a mut Stack,
    ghost room: { Room (W.marks walk.now) stack.now },
    ghost stacked: { Stacked (shown (W.marks walk.now) stack.now) } by { Stacked-prop (shown (W.marks walk.now) stack.now) },
}

impl<W: Walk> Searching<'_, W> {
    /// Searches a node: what it reaches first, and then its action.
    pub(crate) fn visit(&mut self, node: Node) -> Result<(), W::Fault>
        ensures walk { self.new.walk.ghost_name ≡ self.old.walk.ghost_name }
        ensures stack { self.new.stack.ghost_name ≡ self.old.stack.ghost_name }
        ensures fixed { W.fixed self.new.walk.now ≡ W.fixed self.old.walk.now }
        ensures does { Ends (W.arrows (W.fixed self.old.walk.now)) (W.deeds (W.fixed self.old.walk.now)) (shown (W.marks self.old.walk.now) self.old.stack.now) (W.state self.old.walk.now) node.value (shown (W.marks self.new.walk.now) self.new.stack.now) (W.state self.new.walk.now) result }
    {
        match self.walk.meet(node)? {
            Mark::Fresh => {}
            _ => return Ok(()),
        }
        self.enter(node);
        // By hand: `for i in 0..` ends at `usize::MAX`, where no call has said that no arrow is left, so its proof stays open;
        // `0..=usize::MAX` with a `break` is no plainer.
        let mut i = 0;
        while let Some(next) = self.walk.arrow(node, i) {
            self.visit(next)?;
            self.heed(node, next);
            i += 1;
        }
        self.walk.act(node)?;
        if self.stack.is_lowest(node) {
            self.settle(node);
        }
        Ok(())
    }

    /// Opens a new node, and puts it on the stack.
    fn enter(&mut self, node: Node)
        requires { W.marks self.old.walk.now node.value ≡ Fresh }
        ensures walk { self.new.walk.ghost_name ≡ self.old.walk.ghost_name }
        ensures stack { self.new.stack.ghost_name ≡ self.old.stack.ghost_name }
        ensures fixed { W.fixed self.new.walk.now ≡ W.fixed self.old.walk.now }
        ensures state { W.state self.new.walk.now ≡ W.state self.old.walk.now }
        ensures after { shown (W.marks self.new.walk.now) self.new.stack.now ≡ entered (shown (W.marks self.old.walk.now) self.old.stack.now) node.value }
    {
        self.walk.open(node);
        self.stack.push(node);
    }

    /// The low mark of `node` heeds that of `next`, if that is on the stack.
    fn heed(&mut self, node: Node, next: Node)
        ensures walk { self.new.walk ≡ self.old.walk }
        ensures stack { self.new.stack.ghost_name ≡ self.old.stack.ghost_name }
        ensures after { shown (W.marks self.new.walk.now) self.new.stack.now ≡ lower (shown (W.marks self.old.walk.now) self.old.stack.now) node.value next.value }
    {
        if let Mark::Open = self.walk.look(next) {
            self.stack.lower(node, next);
        }
    }

    /// Pops the stack through `root`, and finishes all that is popped.
    fn settle(&mut self, root: Node)
        requires { Memᴰ root.value (shown (W.marks self.old.walk.now) self.old.stack.now).stack }
        ensures walk { self.new.walk.ghost_name ≡ self.old.walk.ghost_name }
        ensures stack { self.new.stack.ghost_name ≡ self.old.stack.ghost_name }
        ensures fixed { W.fixed self.new.walk.now ≡ W.fixed self.old.walk.now }
        ensures does { Finishes (W.deeds (W.fixed self.old.walk.now)) (shown (W.marks self.old.walk.now) self.old.stack.now) root.value (down_to root.value (shown (W.marks self.old.walk.now) self.old.stack.now).stack) (W.state self.old.walk.now) (W.state self.new.walk.now) }
        ensures after { shown (W.marks self.new.walk.now) self.new.stack.now ≡ close (shown (W.marks self.old.walk.now) self.old.stack.now) root.value }
    {
        while let Some(node) = self.stack.pop() {
            self.walk.close(node, root);
            if node == root {
                break;
            }
        }
    }
}
