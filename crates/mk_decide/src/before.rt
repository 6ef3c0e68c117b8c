//! What answers whether edges lead from one node to another.
ghost use Rattle.std.specs.Prelude.{◌≡◌, ◌<◌, ◌↔◌, IsTrue};
ghost use Rattle.mk_jobs.specs.Jobs as spec;
ghost use Rattle.mk_jobs.specs.Jobs.{node_count};

/// Answers which node comes before which in some jobs. No call takes memory.
pub trait Before {
    /// The jobs that it was made from.
    ghost jobs: { Self → spec.Jobs };

    /// Whether one or several edges in a row lead from a to b. Both numbers must be below the count of nodes.
    fn before(&mut self, a: u32, b: u32) -> bool
        requires first { a < node_count (jobs self.old) }
        requires second { b < node_count (jobs self.old) }
        ensures exact { IsTrue result ↔ spec.Before (jobs self.old) a b }
        ensures keeps { jobs self.new ≡ jobs self.old };
}
