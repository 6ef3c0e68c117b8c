//! Whether all is fine with a node and a file.
ghost use Rattle.std.specs.Prelude.{ℕ, ◌≡◌, ◌<◌, ◌↔◌, ◌⊎◌, All, Contains, IfNone, IfOk, IfSome, IsTrue, false, true};
ghost use Rattle.mk_jobs.specs.Jobs as spec;
ghost use Rattle.mk_jobs.specs.Jobs.{node_count};
ghost use Rattle.mk_jobs.specs.Shape.{IsWellFormed};
ghost use Rattle.mk_missing.specs.Watching.{RunsWith};
ghost use Rattle.mk_missing.specs.Files.{WatchesFile, writes_file};
ghost use Rattle.mk_missing.specs.Finding.{IsInTime};
ghost use Rattle.mk_missing.specs.Kinds.{IsFine, IsWrong, nodes_of};
ghost use Rattle.mk_missing.specs.Users.{AreUsers};
ghost use Rattle.mk_missing.specs.Violations.{IsLate};

use crate::always::always_marks;
use crate::hearing::Hearing;
use crate::kind::Kind;
use crate::users::Users;
use crate::watching::{runs_with, watches};
use mk_decide::before::Before;
use mk_decide::rows::Rows;
use mk_jobs::jobs::Jobs;
use std::alloc::{AllocError, Global};
use std::marker::Model;

/// What it takes to say whether all is fine with a node and a file: which nodes hear of which, which run always, and which are
/// before which.
#[derive(Drop)]
pub(crate) struct Checker<'a> {
    jobs: &'a Jobs,
    hearing: Hearing<'a>,
    always: Vec<bool>,
    before: Rows<'a>,
}

impl<'a> Model for Checker<'a> {
    ghost use Rattle.mk_jobs.specs.Jobs as spec;
    ghost use Rattle.mk_missing.specs.Hearing.{IsReady};

    ghost Value = { spec.Jobs };

    ghost view = { λ a. a.jobs.now };

    ghost invariant = { λ a. IsReady a.jobs.now a.hearing a.always.items a.before };
}

impl<'a> Checker<'a> {
    /// The checker of these jobs. The only error is out of memory.
    pub(crate) fn new(alloc: Global, jobs: &'a Jobs) -> Result<Checker<'a>, AllocError>
        ensures is { IfOk result (λ checker. checker ≡ jobs.now) }
        ensures shape { IfOk result (λ checker. IsWellFormed jobs.now) }
    {
        Ok(Checker {
            jobs,
            hearing: Hearing::new(alloc, jobs)?,
            always: always_marks(alloc, jobs)?,
            before: Rows::new(alloc, jobs)?,
        })
    }

    /// Whether all of this kind is fine with a node and a file.
    pub(crate) fn is_fine(&mut self, kind: Kind, users: &Users, n: u32) -> bool
        requires users { AreUsers self.old users.now }
        requires node { Contains (nodes_of kind users.now) n }
        ensures fine { result ≡ true → IsFine self.old kind n users.now.file }
        ensures wrong { result ≡ false → IsWrong self.old kind n users.now.file }
        ensures keeps { self.new ≡ self.old }
    {
        match kind {
            Kind::Unwatched => self.is_watched(users, n),
            Kind::Late => self.is_in_time(users, n),
            Kind::Shared => self.is_with_last(users, n),
        }
    }

    /// Whether a node watches a file, which is its input.
    fn is_watched(&self, users: &Users, n: u32) -> bool
        requires users { AreUsers self.now users.now }
        requires node { Contains users.now.inputs.items n }
        ensures { IsTrue result ↔ WatchesFile self.now n users.now.file }
    {
        watches(self.jobs, &self.hearing, &self.always, users, n)
    }

    /// Whether all writers of a file are before a node, whose input it is.
    fn is_in_time(&mut self, users: &Users, n: u32) -> bool
        requires users { AreUsers self.old users.now }
        requires node { Contains users.now.inputs.items n }
        ensures time { result ≡ true → IsInTime self.old n users.now.file }
        ensures late { result ≡ false → IsLate self.old n users.now.file }
        ensures keeps { self.new ≡ self.old }
    {
        late_writer(&mut self.before, &users.writers, n).is_none()
    }

    /// Whether a writer of a file is the last one, or the last one runs with it.
    fn is_with_last(&self, users: &Users, n: u32) -> bool
        requires users { AreUsers self.now users.now }
        requires node { Contains users.now.writers.items n }
        ensures { IsTrue result ↔ IfSome users.now.last (λ w. (n ≡ w) ⊎ RunsWith self.now n w) }
    {
        match users.last {
            Some(w) => n == w || runs_with(&self.hearing, &self.always, n, w),
            None => true,
        }
    }

    /// A writer of a file that is not before a node, where there is one.
    pub(crate) fn late_by(&mut self, users: &Users, n: u32) -> u32
        requires users { AreUsers self.old users.now }
        requires late { IsLate self.old n users.now.file }
        ensures writes { writes_file self.old result users.now.file ≡ true }
        ensures late { spec.Before self.old result n → ⊥ }
        ensures keeps { self.new ≡ self.old }
    {
        late_writer(&mut self.before, &users.writers, n).unwrap_or(n)
    }
}

/// The first of some nodes that is not before another, if there is one.
fn late_writer(before: &mut Rows<'_>, nodes: &[u32], n: u32) -> Option<u32>
    requires nodes { All (λ m. m < node_count before.old) nodes.now }
    requires node { n < node_count before.old }
    ensures late { IfSome result (λ m. Contains nodes.now m × (spec.Before before.old m n → ⊥)) }
    ensures all { IfNone result (All (λ m. spec.Before before.old m n) nodes.now) }
    ensures keeps { before.new ≡ before.old }
{
    for &m in nodes {
        if !before.before(m, n) {
            return Some(m);
        }
    }
    None
}
