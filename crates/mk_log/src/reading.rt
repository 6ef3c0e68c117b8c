//! From the text of a log to the log, or to the first line at fault.
ghost use Rattle.std.specs.Prelude.{◌≡◌, [], List, ℕ, IfOk};
ghost use Rattle.mk_name.specs.Gives.{Answers};
ghost use Rattle.mk_name.specs.declared.fault.Halt.TheVariants as halts;
ghost use Rattle.mk_log.specs.Adding.{AddsEntry, AddsLine};
ghost use Rattle.mk_log.specs.Reading.{IsLogOf, IsLogRead, may_follow, reported};
ghost use Rattle.mk_log.specs.declared.entry.Entry.{Entry};
ghost use Rattle.mk_log.specs.declared.entry.Entry.TheVariants.{Holds};

use crate::entry::{Entry, entry_of};
use crate::log::Log;
use crate::nodes::Nodes;
use mk_foot::object::is_blank;
use mk_jobs::jobs::Jobs;
use mk_json::Scratch;
use mk_name::fault::{Fault, Halt, Kind, Source};
use mk_name::name::Name;
use mk_sched::store::Store;
use mk_text::lexical::physical_lines;
use mk_text::root::Root;
use std::alloc::{AllocError, Global};

/// Reads a log, one object of JSON a line (profile); docs/FORMATS.md has the objects. Lines with nothing but spaces, tabs
/// and carriage returns are passed over; the last line needs no newline; keys that an object's word does not ask for mean
/// nothing.
///
/// The fault is `BadLog` in the log at the first line from 1 that is bad: one that is no such object in UTF-8, that names
/// no node of the jobs or has a path that `plain_path` refuses, and a file that stands behind an event or behind a file
/// of the same name. The only other error is out of memory.
pub fn read_log(alloc: Global, text: &[u8], jobs: &Jobs, root: &Root) -> Result<Log, Halt>
    ensures { Answers result (IsLogRead jobs.now root.now text.now) }
{
    let lines = physical_lines(alloc, text)?;
    let mut log = empty_log(alloc);
    let mut scratch = Scratch::new(alloc);
    let mut nodes = Nodes::new(alloc, jobs, root)?;
    for (number, text) in lines.iter().enumerate() {
        if !add_line(alloc, &mut log, text, &mut scratch, &mut nodes)? {
            return Err(fault(alloc, number as u64 + 1));
        }
    }
    Ok(log)
}

/// The log that says nothing.
fn empty_log(alloc: Global) -> Log
    ensures { IsLogOf [] result }
{
    Log {
        store: Store::new(alloc),
        events: Vec::new(alloc),
    }
}

/// The fault of a bad line.
fn fault(alloc: Global, place: u64) -> Halt
    ensures { result ≡ halts.Fault (reported place) }
{
    Halt::Fault(Fault::unnamed(alloc, Kind::BadLog, Source::Log, place))
}

/// Adds what a physical line says, and says whether the line is good behind those before it.
fn add_line(
    alloc: Global,
    log: &mut Log,
    text: &[u8],
    scratch: &mut Scratch,
    nodes: &mut Nodes<'_>,
) -> Result<bool, AllocError>
    ensures adds { IfOk result (λ good.
        AddsLine nodes.old.jobs nodes.old.root log.old text.now good log.new) }
    ensures keeps { nodes.new ≡ nodes.old }
{
    if is_blank(text) {
        return Ok(true);
    }
    match entry_of(alloc, text, scratch, nodes)? {
        Some(entry) => add_entry(log, entry),
        None => Ok(false),
    }
}

/// Adds what an entry says, and says whether it may follow those before it.
fn add_entry(log: &mut Log, entry: Entry) -> Result<bool, AllocError>
    ensures { IfOk result (λ follows. AddsEntry log.old entry follows log.new) }
{
    match entry {
        Entry::Holds(path, contents, time) => {
            if !may_hold(log, &path) {
                return Ok(false);
            }
            log.store.put(path, contents, time)?;
        }
        Entry::Happens(event) => log.events.push(event)?,
    }
    Ok(true)
}

/// Whether a file at this name may follow what the log says.
fn may_hold(log: &Log, path: &Name) -> bool
    ensures { (before : List Entry) (bytes : List ℕ) (time : ℕ) → IsLogOf before log.now
        → result ≡ may_follow before (Holds path.now bytes time) }
{
    log.events.is_empty() && log.store.file(path).is_none()
}
