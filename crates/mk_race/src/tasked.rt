//! From a text of tasks to their jobs.
ghost use Rattle.mk_name.specs.Gives.{Gives};
ghost use Rattle.mk_race.specs.Tasked.{tasked};

use mk_jobs::jobs::Jobs;
use mk_name::fault::Halt;
use mk_task::reading::read_tasks;
use mk_text::root::Root;
use std::alloc::Global;

/// The jobs of a text of tasks below a root. The first fault is that of the root, and then that of the first line that has
/// one (see [`read_tasks`]). The only other error is out of memory.
pub fn prepare_tasks(alloc: Global, root: &[u8], tasks: &[u8]) -> Result<Jobs, Halt>
    ensures { Gives result (tasked root.now tasks.now) }
{
    let root = Root::read(alloc, root)?;
    read_tasks(alloc, tasks, &root)
}
