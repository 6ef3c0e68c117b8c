//! Laws of the jobs of tasks. Each function's contract is a law, and its body is empty.
ghost use Rattle.mk_task.specs.Started.{StoresAgree, TasksStart};

/// In a complete run of the jobs of tasks each task has started.
pub fn tasks_start()
    ensures { TasksStart }
{}

/// A store that has no task's own name agrees with the jobs of any tasks.
pub fn stores_agree()
    ensures { StoresAgree }
{}
