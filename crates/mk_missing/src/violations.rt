//! Whether jobs are declared, and all that keeps them from it.
ghost use Rattle.std.specs.Prelude.{◌↔◌, IfOk};
ghost use Rattle.mk_missing.specs.Watching.{IsDeclared};
ghost use Rattle.mk_missing.specs.Unlisted.{unlisted_names};
ghost use Rattle.mk_missing.specs.Violations.{AreViolations, HasNone, ListsNoOutputs, WriteNoTrees};

use crate::checker::Checker;
use crate::flaws::flawed_files;
use crate::kind::{Flaw, Kind};
use crate::present::present_nodes;
use crate::unlisted::{drop_unlisted, unlisted_marks};
use crate::users::all_users;
use crate::writers::{files_of, last_writers, late_writers};
use crate::wrong::wrong_pairs;
use mk_jobs::jobs::Jobs;
use mk_path::path::Path;
use mk_text::listing::Listing;
use std::alloc::{AllocError, Global};

/// What keeps builds of old trees from leaving what a build of a clean tree leaves. A pair has a file's place and a node's number.
#[derive(Debug, Drop)]
pub struct Violations {
    /// All files that recipes read or write.
    pub files: Vec<Path>,
    /// Of each file the last writer, if it has one.
    pub last: Vec<Option<u32>>,
    /// An input that the node does not watch, and that is not unlisted: after an edit of it the node would not run.
    pub missing: Vec<(u32, u32)>,
    /// How many inputs the nodes do not watch that are unlisted: no recipe makes them, and the listing does not have them.
    pub unlisted: usize,
    /// An input of the node that some node writes which is not before it.
    pub late: Vec<(u32, u32)>,
    /// For each of these pairs a writer that is not before the node.
    pub late_by: Vec<u32>,
    /// A file that the node writes, and later another node, which does not run with it.
    pub shared: Vec<(u32, u32)>,
    /// Live nodes, not phony, whose files are listed: the listing is not that of a clean tree.
    pub present: Vec<u32>,
    /// The places of further files that recipes write and that are listed.
    pub outputs: Vec<u32>,
    /// The places of trees that recipes write: no footprint shows that such a recipe removes what stood there.
    pub trees: Vec<u32>,
}

/// All violations of these jobs, where unlisted files never change: there is none exactly where the jobs are declared, no recipe writes
/// a tree, and none writes what is listed. The only error is out of memory. For each file it looks up its users; of N nodes it keeps a
/// row of N bits each.
pub fn find_violations(
    alloc: Global,
    jobs: &Jobs,
    listing: &Listing,
) -> Result<Violations, AllocError>
    ensures all { IfOk result (AreViolations jobs.now listing.now) }
    ensures declared { IfOk result (λ found. HasNone found
        ↔ (IsDeclared jobs.now (unlisted_names jobs.now listing.now) × WriteNoTrees jobs.now × ListsNoOutputs jobs.now listing.now)) }
{
    let users = all_users(alloc, jobs)?;
    let mut checker = Checker::new(alloc, jobs)?;
    let mut missing = wrong_pairs(alloc, &mut checker, Kind::Unwatched, &users)?;
    let unlisted = drop_unlisted(&mut missing, &unlisted_marks(alloc, listing, &users)?);
    let late = wrong_pairs(alloc, &mut checker, Kind::Late, &users)?;
    let late_by = late_writers(alloc, &mut checker, &users, &late)?;
    let shared = wrong_pairs(alloc, &mut checker, Kind::Shared, &users)?;
    let outputs = flawed_files(alloc, jobs, listing, Flaw::Listed, &users)?;
    let trees = flawed_files(alloc, jobs, listing, Flaw::Tree, &users)?;
    Ok(Violations {
        last: last_writers(alloc, &users)?,
        files: files_of(alloc, users)?,
        missing,
        unlisted,
        late,
        late_by,
        shared,
        present: present_nodes(alloc, jobs)?,
        outputs,
        trees,
    })
}
