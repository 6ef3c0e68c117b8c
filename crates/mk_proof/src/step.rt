//! Steps of a trace.

/// A step: a node, by its number, is skipped, starts or finishes.
#[derive(Clone, Copy, Debug, PartialEq, Eq)]
pub enum Step {
    Skip(u32),
    Start(u32),
    Finish(u32),
}

impl Step {
    ghost use Rattle.std.specs.Prelude.{◌≡◌};
    ghost use Rattle.mk_proof.specs.Shapes.{node_of};

    /// The number of the node.
    pub fn node(self) -> u32
        ensures { result ≡ node_of self }
    {
        match self {
            Step::Skip(node) | Step::Start(node) | Step::Finish(node) => node,
        }
    }
}
