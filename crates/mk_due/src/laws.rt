//! Laws of tasks that say when they are due. Each function's contract is a law, and its body is empty.
ghost use Rattle.mk_due.specs.Awaited.{AwaitedIsWaited};
ghost use Rattle.mk_due.specs.Running.{DueTasksRun};

/// Who waits for some nodes waits for just those to which chains of prerequisites lead.
pub fn awaited_is_waited()
    ensures { AwaitedIsWaited }
{}

/// In a build of an old tree a task runs exactly if it is due: its file is absent, or a file that it needs is absent or newer, or was
/// made in this build; a task that does not say when it is due always runs.
pub fn due_tasks_run()
    ensures { DueTasksRun }
{}
