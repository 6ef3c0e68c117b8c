//! Whether a node watches a file.
ghost use Rattle.std.specs.Prelude.{◌≡◌, ◌<◌, ◌↔◌, ◌⊎◌, IfSome, IsTrue};
ghost use Rattle.mk_jobs.specs.Jobs.{node_count};
ghost use Rattle.mk_jobs.specs.Shape.{IsWellFormed};
ghost use Rattle.mk_missing.specs.Watching.{RunsWith};
ghost use Rattle.mk_missing.specs.Files.{WatchesFile};
ghost use Rattle.mk_missing.specs.Finding.{WatchesName, WatchesWriter};
ghost use Rattle.mk_missing.specs.Hearing.{AreAlways};
ghost use Rattle.mk_missing.specs.Users.{AreUsers};

use crate::always::is_never_there;
use crate::hearing::Hearing;
use crate::users::Users;
use mk_jobs::jobs::Jobs;
use mk_path::path::Path;

/// Whether a node watches a file.
pub(crate) fn watches(
    jobs: &Jobs,
    hearing: &Hearing<'_>,
    always: &[bool],
    users: &Users,
    n: u32,
) -> bool
    requires shape { IsWellFormed jobs.now }
    requires same { hearing.now ≡ jobs.now }
    requires always { AreAlways jobs.now always.now (node_count jobs.now) }
    requires users { AreUsers jobs.now users.now }
    requires node { n < node_count jobs.now }
    ensures { IsTrue result ↔ WatchesFile jobs.now n users.now.file }
{
    if always[n as usize] {
        return true;
    }
    if watches_writer(hearing, users.last, n) {
        return true;
    }
    watches_name(jobs, hearing, &users.file, n)
}

/// Whether the last writer of a file, if it has one, carries to a node.
fn watches_writer(hearing: &Hearing<'_>, last: Option<u32>, n: u32) -> bool
    requires writer { IfSome last (λ w. w < node_count hearing.now) }
    requires node { n < node_count hearing.now }
    ensures { IsTrue result ↔ WatchesWriter hearing.now last n }
{
    match last {
        Some(w) => hearing.carries(w, n),
        None => false,
    }
}

/// Whether a node watches a file by its name.
fn watches_name(jobs: &Jobs, hearing: &Hearing<'_>, file: &Path, n: u32) -> bool
    requires shape { IsWellFormed jobs.now }
    requires same { hearing.now ≡ jobs.now }
    requires node { n < node_count jobs.now }
    ensures { IsTrue result ↔ WatchesName jobs.now n file.now }
{
    if file.tree {
        return false;
    }
    match jobs.number(&file.name) {
        Some(k) => is_never_there(jobs, k) || hearing.hears(k, n),
        None => false,
    }
}

/// Whether a node runs always, or another carries to it.
pub(crate) fn runs_with(hearing: &Hearing<'_>, always: &[bool], m: u32, n: u32) -> bool
    requires always { AreAlways hearing.now always.now (node_count hearing.now) }
    requires first { m < node_count hearing.now }
    requires second { n < node_count hearing.now }
    ensures { IsTrue result ↔ RunsWith hearing.now m n }
{
    always[n as usize] || hearing.carries(m, n)
}
