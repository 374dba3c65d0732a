// The nodes of an expression, as they are met. Where reading fails they tell whether that limit was passed before.
ghost use Rattle.std.specs.Prelude.{◌≡◌, ◌<◌, ◌+◌, ◌-◌, IsTrue, IsFalse};
ghost use Rattle.mesh_query.specs.Counts.{anew};
ghost use Rattle.mesh_query.specs.Sizes.{most_nodes};

/// Nodes of one expression.
const MOST_NODES: u32 = 4_096;

/// How many nodes of the expression that is read are left, of one more than it may have. Once none is left, none is
/// left any more.
#[derive(Clone, Copy)]
pub struct Nodes {
    left: u32,
}

impl Nodes {
    pub fn new() -> Nodes
        ensures { result.left ≡ most_nodes + 1 }
    {
        Nodes {
            left: MOST_NODES + 1,
        }
    }

    /// An expression begins.
    pub fn begin(&mut self)
        ensures { self.new.left ≡ anew self.old.left }
    {
        if self.left > 0 {
            self.left = MOST_NODES + 1;
        }
    }

    /// One more node.
    pub fn meet(&mut self)
        ensures { self.new.left ≡ self.old.left - 1 }
    {
        self.left = self.left.saturating_sub(1);
    }

    pub fn are_too_many(&self) -> bool
        ensures none { IsTrue result → (self.now.left ≡ 0) }
        ensures some { IsFalse result → (0 < self.now.left) }
    {
        self.left == 0
    }
}
