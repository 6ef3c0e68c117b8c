//! Who uses each file.
ghost use Rattle.std.specs.Prelude.{ℕ, ◌≡◌, ◌<◌, ◌↔◌, All, Contains, IfOk, IsTrue, length};
ghost use Rattle.std.specs.List.Sorted.{IsStrictlyIncreasing, IsStrictlySortedBy};
ghost use Rattle.mk_index.specs.Holders.{row_limit};
ghost use Rattle.mk_name.specs.Names.{has};
ghost use Rattle.mk_path.specs.Paths.{path_cmp, same_path};
ghost use Rattle.mk_index.specs.Uses.{IsPlaceOf, path_of};
ghost use Rattle.mk_jobs.specs.Jobs.{node_count};
ghost use Rattle.mk_jobs.specs.Reaching.{uses_of};
ghost use Rattle.mk_jobs.specs.Shape.{IsRising};
ghost use Rattle.mk_missing.specs.Files.{IsFile};
ghost use Rattle.mk_missing.specs.Users.{AreUsers, IsOnlyReader, files_of};

use crate::kept::keep;
use mk_index::index::Place;
use mk_jobs::jobs::Jobs;
use mk_path::covering::order;
use mk_path::path::Path;
use std::alloc::{AllocError, Global};

/// A file, the nodes whose input it is, those that write it, and the last of these, by their numbers.
#[derive(Debug, Drop)]
pub(crate) struct Users {
    pub(crate) file: Path,
    pub(crate) inputs: Vec<u32>,
    pub(crate) writers: Vec<u32>,
    pub(crate) last: Option<u32>,
}

/// The files that recipes read or write, in order, each with its users. The only error is out of memory.
pub(crate) fn all_users(alloc: Global, jobs: &Jobs) -> Result<Vec<Users>, AllocError>
    ensures few { IfOk result (λ users. length users.items < row_limit) }
    ensures rise { IfOk result (λ users. IsStrictlySortedBy path_cmp (files_of users.items)) }
    ensures files { IfOk result (λ users. (p : Path) → Contains (files_of users.items) p ↔ IsFile jobs.now p) }
    ensures users { IfOk result (λ users. All (AreUsers jobs.now) users.items) }
{
    let places = jobs.all_places(alloc)?;
    let mut all = Vec::with_capacity(alloc, places.len())?;
    for &place in &places {
        all.push(users_of(alloc, jobs, place)?)?;
    }
    Ok(all)
}

/// The file at a place with its users. The only error is out of memory.
fn users_of(alloc: Global, jobs: &Jobs, place: Place) -> Result<Users, AllocError>
    requires node { place.node < node_count jobs.now }
    requires within { IsPlaceOf (uses_of jobs.now) place }
    ensures file { IfOk result (λ users. users.file ≡ path_of (uses_of jobs.now) place) }
    ensures users { IfOk result (AreUsers jobs.now) }
{
    let _count = jobs.count();
    let readers = jobs.users_over(alloc, place, false)?;
    let writers = jobs.users_over(alloc, place, true)?;
    let file = jobs.path(place).copy(alloc)?;
    Ok(Users {
        inputs: only_readers(alloc, jobs, &readers, &writers, &file)?,
        file,
        last: writers.last().copied(),
        writers,
    })
}

/// Those of the readers of a file that do not write it, and, where nobody writes it, that read the file itself. The only error is
/// out of memory.
fn only_readers(
    alloc: Global,
    jobs: &Jobs,
    readers: &[u32],
    writers: &[u32],
    file: &Path,
) -> Result<Vec<u32>, AllocError>
    requires nodes { All (λ n. n < node_count jobs.now) readers.now }
    requires rise { IsStrictlyIncreasing writers.now }
    ensures { IfOk result (λ kept. (n : ℕ) → Contains kept.items n ↔ (Contains readers.now n × IsOnlyReader jobs.now writers.now file.now n)) }
{
    let mut kept = Vec::new(alloc);
    for &n in readers {
        keep(&mut kept, n, is_only_reader(jobs, writers, file, n))?;
    }
    Ok(kept)
}

/// Whether a node does not write a file, whose writers these are; and, where there is none, whether it reads the file itself.
fn is_only_reader(jobs: &Jobs, writers: &[u32], file: &Path, n: u32) -> bool
    requires node { n < node_count jobs.now }
    requires rise { IsStrictlyIncreasing writers.now }
    ensures { IsTrue result ↔ IsOnlyReader jobs.now writers.now file.now n }
{
    if writers.is_empty() {
        return names(jobs.reads(n), file);
    }
    !is_among(writers, n)
}

/// Whether a path is among others, which rise.
fn names(paths: &[Path], path: &Path) -> bool
    requires { IsRising paths.now }
    ensures { result ≡ has same_path paths.now path.now }
{
    paths
        .binary_search_by(|it| order(it, path.name.as_bytes(), path.tree))
        .is_ok()
}

/// Whether a number is among others, which rise.
fn is_among(numbers: &[u32], n: u32) -> bool
    requires { IsStrictlyIncreasing numbers.now }
    ensures { IsTrue result ↔ Contains numbers.now n }
{
    numbers.binary_search(&n).is_ok()
}
