//! Walks along the edges, from one first node after another.
ghost use Rattle.std.specs.Prelude.{◌≡◌, ◌<◌, ◌||◌, ◌==◌, All, IfOk, false, get_or, length};
ghost use Rattle.std.specs.List.{list_any};
ghost use Rattle.mk_jobs.specs.Jobs.{node_count, prerequisites_of};
ghost use Rattle.mk_decide.specs.Walked.{AreMarkedBehind};

use crate::before::Before;
use mk_jobs::jobs::Jobs;
use std::alloc::{AllocError, Global};
use std::marker::Model;

/// The nodes that come behind one first node. Asked of another first node, it walks along all edges anew; so it is quick
/// where many questions in a row have one first node.
#[derive(Drop)]
pub struct Walk<'a> {
    jobs: &'a Jobs,
    first: Option<u32>,
    marks: Vec<bool>,
}

impl<'a> Model for Walk<'a> {
    ghost use Rattle.mk_jobs.specs.Jobs as spec;
    ghost use Rattle.mk_decide.specs.Walked.{AreMarks};

    ghost Value = { spec.Jobs };

    ghost view = { λ w. w.jobs.now };

    ghost invariant = { λ w. AreMarks w.jobs.now w.first w.marks.items };
}

impl<'a> Walk<'a> {
    /// A walk over these jobs, with room for a mark for each node. The only error is out of memory.
    pub fn new(alloc: Global, jobs: &'a Jobs) -> Result<Walk<'a>, AllocError>
        ensures { IfOk result (λ walk. walk ≡ jobs.now) }
    {
        let marks = vec![in alloc; false; jobs.count() as usize]?;
        Ok(Walk {
            jobs,
            first: None,
            marks,
        })
    }
}

impl Before for Walk<'_> {
    ghost jobs = { λ w. w };

    fn before(&mut self, a: u32, b: u32) -> bool {
        if self.first != Some(a) {
            mark_after(self.jobs, a, &mut self.marks);
            self.first = Some(a);
        }
        self.marks[b as usize]
    }
}

/// Marks the nodes that have a before them, and no other.
fn mark_after(jobs: &Jobs, a: u32, marks: &mut [bool])
    requires { length marks.old ≡ node_count jobs.now }
    ensures { AreMarkedBehind jobs.now a marks.new (node_count jobs.now) }
{
    for x in 0..jobs.count() {
        let marked = has_marked(jobs.prerequisites(x), a, marks);
        marks[x as usize] = marked;
    }
}

/// Whether one of these nodes is a, or marked.
fn has_marked(nodes: &[u32], a: u32, marks: &[bool]) -> bool
    requires { All (λ p. p < length marks.now) nodes.now }
    ensures { result ≡ list_any (λ p. p == a || get_or marks.now p false) nodes.now }
{
    nodes.iter().any(|&p| p == a || marks[p as usize])
}
