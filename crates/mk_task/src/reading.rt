//! From the text of tasks to their jobs, or to the first line at fault.
ghost use Rattle.std.specs.Prelude.{◌≡◌, [], Ok, IfErr, IfOk, OnOk};
ghost use Rattle.mk_name.specs.Gives.{Gives, Halts};
ghost use Rattle.mk_name.specs.declared.fault.Halt.TheVariants as halts;
ghost use Rattle.mk_task.specs.Good.{IsTally};
ghost use Rattle.mk_task.specs.JobsOf.{jobs_in};
ghost use Rattle.mk_task.specs.Tasks as spec;

use crate::line::line_of;
use crate::making::jobs_of;
use crate::tasks::{Tally, Task};
use mk_foot::object::is_blank;
use mk_jobs::jobs::Jobs;
use mk_json::Scratch;
use mk_name::fault::{Fault, Halt, Kind, Source};
use mk_text::lexical::split_line;
use mk_text::root::Root;
use std::alloc::Global;

/// Reads tasks, one object of JSON a line (profile), and gives their jobs. Its `task` is a label, any text of 1 to 4,096
/// bytes, and `after` a list of labels of earlier lines; its `reads` and `writes` are lists of paths, of which one whose last
/// byte is `/` is a tree. Other keys mean nothing. Lines with nothing but spaces, tabs and carriage returns are passed over;
/// the last line needs no newline. A task's number is its place among the tasks, from 0. It has a recipe that always runs,
/// behind those that `after` names; a label that stands there twice counts once.
///
/// The fault of the first line that has one is answered, each in the tasks at its line from 1, and of a line the first of
/// these: `BadTask` where it is no such object in UTF-8, has a text that `plain_path` refuses, or writes the tree `/`;
/// `TaskTwice` with its label, where an earlier line has that; `UnknownTask` with the first label in `after` that no earlier
/// line has; `TooManyTasks` where with it there are more than 20,000 tasks or 200,000 edges; `TasksTooLarge` where with it all
/// paths, those that are read and those that are written, repeats too, are more than 1,000,000. The only other error is out
/// of memory.
pub fn read_tasks(alloc: Global, text: &[u8], root: &Root) -> Result<Jobs, Halt>
    ensures { Gives result (jobs_in root.now text.now) }
{
    let tasks = tasks_in(alloc, text, root)?;
    Ok(jobs_of(alloc, tasks, root)?)
}

/// The tasks of a text, or the first line's fault.
fn tasks_in(alloc: Global, text: &[u8], root: &Root) -> Result<Vec<Task>, Halt>
    ensures tasks { IfOk result (λ tasks. spec.tasks_of root.now text.now ≡ Ok tasks.items) }
    ensures fault { IfErr result (λ halt. Halts halt (spec.tasks_of root.now text.now)) }
{
    let mut tally = Tally::new(alloc);
    let mut scratch = Scratch::new(alloc);
    let mut place = 1;
    let mut rest = Some(text);
    'lines: while let Some(text) = rest {
        let (line, later) = split_line(text);
        add_text(alloc, &mut tally, line, &mut scratch, place, root)?;
        place = place.saturating_add(1);
        rest = later;
    }
    Ok(tally.tasks)
}

/// Adds the task of the physical line at a place, unless it is blank; or answers the line's fault, and then nothing is known
/// of the tasks.
fn add_text(
    alloc: Global,
    tally: &mut Tally,
    text: &[u8],
    scratch: &mut Scratch,
    place: u64,
    root: &Root,
) -> Result<(), Halt>
    requires { IsTally tally.old }
    ensures tally { OnOk result (IsTally tally.new) }
    ensures added { OnOk result (spec.with_text root.now place tally.old.tasks text.now ≡ Ok tally.new.tasks) }
    ensures fault { IfErr result (λ halt.
        Halts halt (spec.with_text root.now place tally.old.tasks text.now)) }
{
    if is_blank(text) {
        return Ok(());
    }
    match line_of(alloc, text, scratch, root)? {
        Some(line) => tally.add(alloc, line, place),
        None => Err(bad(alloc, place)),
    }
}

/// The fault of a bad line at a place.
fn bad(alloc: Global, place: u64) -> Halt
    ensures { result ≡ halts.Fault (spec.reported Kind.BadTask place []) }
{
    Halt::Fault(Fault::unnamed(alloc, Kind::BadTask, Source::Tasks, place))
}
