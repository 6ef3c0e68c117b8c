//! Files, their last writers, and the writers that violations are due to.
ghost use Rattle.std.specs.Prelude.{◌≡◌, ◌<◌, All, IfOk, length, map};
ghost use Rattle.mk_path.specs.Paths.{path_at};
ghost use Rattle.mk_missing.specs.Users.{AreUsers, files_of as files};
ghost use Rattle.mk_missing.specs.Violations.{AreLateBy, IsLate};

use crate::checker::Checker;
use crate::users::Users;
use mk_path::path::Path;
use std::alloc::{AllocError, Global};

/// The last writer of each file, if there is one. The only error is out of memory.
pub(crate) fn last_writers(alloc: Global, users: &[Users]) -> Result<Vec<Option<u32>>, AllocError>
    ensures { IfOk result (λ last. last.items ≡ map (λ user. user.last) users.now) }
{
    let mut last = Vec::with_capacity(alloc, users.len())?;
    for user in users {
        last.push(user.last)?;
    }
    Ok(last)
}

/// The files alone. The only error is out of memory.
pub(crate) fn files_of(alloc: Global, users: Vec<Users>) -> Result<Vec<Path>, AllocError>
    ensures { IfOk result (λ paths. paths.items ≡ files users.items) }
{
    let mut paths = Vec::with_capacity(alloc, users.len())?;
    for user in users {
        paths.push(user.file)?;
    }
    Ok(paths)
}

/// For each pair of a file's place and a node, a writer of the file that is not before the node. The only error is out of memory.
pub(crate) fn late_writers(
    alloc: Global,
    checker: &mut Checker<'_>,
    users: &[Users],
    pairs: &[(u32, u32)],
) -> Result<Vec<u32>, AllocError>
    requires users { All (AreUsers checker.old) users.now }
    requires late { All (λ pair. (pair.0 < length users.now) × IsLate checker.old pair.1 (path_at (files users.now) pair.0)) pairs.now }
    ensures writers { IfOk result (λ writers. AreLateBy checker.old (files users.now) pairs.now writers.items) }
    ensures keeps { checker.new ≡ checker.old }
{
    let mut writers = Vec::with_capacity(alloc, pairs.len())?;
    for &(k, n) in pairs {
        let writer = checker.late_by(&users[k as usize], n);
        writers.push(writer)?;
    }
    Ok(writers)
}
