//! All that keeps a run of tasks in an old tree from leaving what a run in a clean tree leaves.
ghost use Rattle.std.specs.Prelude.{IfOk};
ghost use Rattle.mk_name.specs.Gives.{Answers};
ghost use Rattle.mk_race.specs.Missing.{IsEmpty};
ghost use Rattle.mk_race.specs.TasksMissing.{IsMissingListBelow, IsPreparedBelow, TasksBuildAsClean};

use crate::missing::{MissingList, missing_of};
use crate::preparing::Prepared;
use mk_due::reading::read_due_tasks;
use mk_name::fault::Halt;
use mk_text::listing::Listing;
use mk_text::root::Root;
use std::alloc::Global;

/// The jobs of tasks that name the files they make and need, below a root, with a listing. The first fault is that of the root,
/// then of the listing by its lines, and then that of the first line of tasks that has one (see [`read_due_tasks`]). The only
/// other error is out of memory.
pub fn prepare_due_tasks(
    alloc: Global,
    root: &[u8],
    listing: &[u8],
    tasks: &[u8],
) -> Result<Prepared, Halt>
    ensures { Answers result (IsPreparedBelow root.now listing.now tasks.now) }
{
    let root = Root::read(alloc, root)?;
    let listing = Listing::read(alloc, listing, &root)?;
    let jobs = read_due_tasks(alloc, tasks, &root, &listing)?;
    Ok(Prepared {
        root,
        listing,
        jobs,
    })
}

/// All races and all violations of tasks below a root, with a listing, each once, as [`list_missing`](crate::missing::list_missing) gives
/// those of a build.
///
/// The first fault is that of the jobs (see [`prepare_due_tasks`]), and then `TooManyPairs` in the jobs at place 0, where more
/// than 1,000,000 pairs of tasks clash. The only other error is out of memory.
pub fn list_missing_tasks(
    alloc: Global,
    root: &[u8],
    listing: &[u8],
    tasks: &[u8],
) -> Result<MissingList, Halt>
    ensures missing { Answers result (IsMissingListBelow root.now listing.now tasks.now) }
    // The headline: where there is neither, tasks in an old tree leave what they leave in a clean tree, and no schedule shows.
    ensures headline { IfOk result (λ listed. IsEmpty listed
        → TasksBuildAsClean root.now listing.now tasks.now) }
{
    let prepared = prepare_due_tasks(alloc, root, listing, tasks)?;
    missing_of(alloc, prepared, None)
}
