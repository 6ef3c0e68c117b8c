//! From the text of tasks and a listing to their jobs, or to the first line at fault.
ghost use Rattle.std.specs.Prelude.{◌≡◌, [], Ok, IfErr, IfOk, OnOk};
ghost use Rattle.mk_name.specs.Gives.{Answers, Halts, HaltsAmong};
ghost use Rattle.mk_name.specs.declared.fault.Halt.TheVariants as halts;
ghost use Rattle.mk_text.specs.Listing.{lines};
ghost use Rattle.mk_jobs.specs.Jobs.{IsValid};
ghost use Rattle.mk_task.specs.Tasks.{reported};
ghost use Rattle.mk_due.specs.Good.{AreGood, IsTally};
ghost use Rattle.mk_due.specs.Items as spec;
ghost use Rattle.mk_due.specs.JobsOf.{AreJobsIn};

use crate::item::DueItem;
use crate::line::line_of;
use crate::making::jobs_of;
use crate::tally::Tally;
use mk_foot::object::is_blank;
use mk_jobs::jobs::Jobs;
use mk_json::Scratch;
use mk_name::fault::{Fault, Halt, Kind, Source};
use mk_text::lexical::split_line;
use mk_text::listing::Listing;
use mk_text::root::Root;
use std::alloc::Global;

/// Reads tasks, one object of JSON a line (profile), beside the listing of the files that exist before a build, and gives
/// their jobs. Lines are read as [`read_tasks`](mk_task::reading::read_tasks) reads them, and a line may have two keys more:
/// `makes`, the name of the file that its task makes, and `needs`, a list of the names of the files that make it run where
/// they are newer or absent. Both are there or neither.
///
/// Nodes have numbers in the order in which lines mention them. A task without these keys is a phony node, as there. With
/// them a line means: a leaf for each name in `needs` that no earlier node has, listed where the listing has it; where
/// `after` names tasks other than those that make its needs, an order node, which has no recipe and is listed, behind these
/// tasks; and the node of the file that the task makes, listed where the listing has it, behind the nodes of its needs and
/// its order node. So it runs where its file is absent, or one of its needs is newer, absent or was made, and waits for the
/// others.
///
/// The fault of the first line that has one is answered, each in the tasks at its line from 1, and of a line the first of
/// these: `BadTask` as there, also where `makes` or `needs` has a text that `plain_path` refuses or is of another kind, or one
/// of them stands alone; `TaskTwice` with its label, where an earlier line has that; `UnknownTask` with the first label in
/// `after` that no earlier line has; `NotAwaited` with the first file in `needs` that an earlier task makes, if this one does not
/// wait for that task: `after` names neither it nor a task that waits for it; and of its nodes, one after another, `TaskTwice` with the file that its task makes,
/// where an earlier node has that name, `TooManyTasks` where with this node there are more than 20,000 nodes or 200,000
/// edges, and `TasksTooLarge` where with its paths there are more than 1,000,000. Behind all lines comes `WritesTarget`, at
/// the line of the first task that writes the name of another node, with its label and the least such name. The only other
/// error is out of memory.
pub fn read_due_tasks(
    alloc: Global,
    text: &[u8],
    root: &Root,
    listing: &Listing,
) -> Result<Jobs, Halt>
    ensures jobs { Answers result (AreJobsIn root.now listing.now text.now) }
    // What is given is valid: no task writes a file of another, and who needs a node has a greater number.
    ensures valid { IfOk result IsValid }
{
    let items = items_in(alloc, text, root, listing)?;
    let jobs = jobs_of(alloc, items, root)?;
    let _count = jobs.count();
    Ok(jobs)
}

/// The items of a text, or the first line's fault.
fn items_in(
    alloc: Global,
    text: &[u8],
    root: &Root,
    listing: &Listing,
) -> Result<Vec<DueItem>, Halt>
    ensures good { IfOk result (λ items. AreGood items.items) }
    ensures items { IfOk result (λ items. spec.AreItems root.now listing.now (lines text.now) items.items) }
    ensures fault { IfErr result (λ halt. HaltsAmong halt (spec.LinesMean root.now listing.now (lines text.now))) }
{
    let mut tally = Tally::new(alloc);
    let mut scratch = Scratch::new(alloc);
    let mut place = 1;
    let mut rest = Some(text);
    'lines: while let Some(text) = rest {
        let (line, later) = split_line(text);
        add_text(alloc, &mut tally, line, &mut scratch, place, root, listing)?;
        place = place.saturating_add(1);
        rest = later;
    }
    Ok(tally.items)
}

/// Adds the items of the physical line at a place, unless it is blank; or answers the line's fault, and then nothing is known
/// of the items.
fn add_text(
    alloc: Global,
    tally: &mut Tally,
    text: &[u8],
    scratch: &mut Scratch,
    place: u64,
    root: &Root,
    listing: &Listing,
) -> Result<(), Halt>
    requires { IsTally tally.old }
    ensures tally { OnOk result (IsTally tally.new) }
    ensures added { OnOk result (spec.with_text root.now listing.now place tally.old.items.items text.now ≡ Ok tally.new.items.items) }
    ensures fault { IfErr result (λ halt.
        Halts halt (spec.with_text root.now listing.now place tally.old.items.items text.now)) }
{
    if is_blank(text) {
        return Ok(());
    }
    match line_of(alloc, text, scratch, root)? {
        Some(line) => tally.add(alloc, line, place, listing),
        None => Err(bad(alloc, place)),
    }
}

/// The fault of a bad line at a place.
fn bad(alloc: Global, place: u64) -> Halt
    ensures { result ≡ halts.Fault (reported Kind.BadTask place []) }
{
    Halt::Fault(Fault::unnamed(alloc, Kind::BadTask, Source::Tasks, place))
}
