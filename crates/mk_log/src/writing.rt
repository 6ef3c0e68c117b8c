//! From a log to its text.
ghost use Rattle.std.specs.Prelude.{◌≡◌, ◌<◌, ◌++◌, ◌↔◌, IsTrue, Ok, Some, false, true, IfErr, IfOk, OnOk, List, ℕ, [], ◌∷◌, map};
ghost use Rattle.std.specs.List.{flat_map, list_all};
ghost use Rattle.std.specs.Map.{keys_of};
ghost use Rattle.std.specs.Str.{IsUtf8, is_utf8};
ghost use Rattle.json.specs.Lex.{tokens};
ghost use Rattle.json.specs.Print.{print};
ghost use Rattle.mk_jobs.specs.Jobs as foot;
ghost use Rattle.mk_jobs.specs.Jobs.{node_count};
ghost use Rattle.mk_sched.specs.Steps.{step_of};
ghost use Rattle.mk_sched.specs.Stored.{IsInOrder};
ghost use Rattle.mk_log.specs.Reading.{IsReadAs};
ghost use Rattle.mk_log.specs.Spelled.{Adds, file_entry};
ghost use Rattle.mk_log.specs.Writing.{AreOfNodes, ReadBack, is_text, log_text, names_in};
ghost use Rattle.mk_log.specs.declared.entry.Entry.TheVariants.{Happens};
ghost use Rattle.mk_log.specs.declared.writing.LogHalt.TheVariants.{Memory};

use crate::log::Log;
use crate::object::{write_event, write_file};
use json::Writer;
use mk_jobs::jobs::Jobs;
use mk_name::name::Name;
use mk_sched::event::Event;
use mk_sched::file::File;
use mk_sched::store::Store;
use std::alloc::{AllocError, Global};

/// The bytes that the line of an event seldom has more of. A longer line makes more room for itself.
const USUAL_LENGTH: usize = 256;

/// Why a log is not written.
#[derive(Clone, Copy, Debug, PartialEq, Eq)]
pub enum LogHalt {
    /// Memory ran out.
    Memory,
    /// A name in it is not UTF-8.
    NotText,
}

impl From<AllocError> for LogHalt {
    ghost from_gives = { λ _ halt. halt ≡ Memory };

    fn from(_error: AllocError) -> LogHalt {
        LogHalt::Memory
    }
}

/// Writes a log: its files in the byte order of their names and then its events, each as the object of JSON without spaces, its
/// keys in byte order, and a newline (profile). The events must be of nodes of these jobs.
///
/// The error is `NotText` where a name in the log, a file's, a node's or a path, is not UTF-8; else it is out of memory.
/// Below a root where each name in the log is a path that names itself, `read_log` answers this log for what is written,
/// and can answer nothing else.
pub fn write_log(alloc: Global, jobs: &Jobs, log: &Log) -> Result<Vec<u8>, LogHalt>
    requires { AreOfNodes jobs.now log.now.events }
    ensures text { IfOk result (λ text. text.items ≡ log_text jobs.now log.now) }
    ensures is_text { IfOk result (λ text. is_text jobs.now log.now ≡ true) }
    ensures not_text { IfErr result (λ halt. halt ≡ LogHalt.NotText → is_text jobs.now log.now ≡ false) }
    ensures reads_back { IfOk result (λ text. (root : List ℕ)
        → ReadBack jobs.now root log.now → IsReadAs jobs.now root text.items log.now) }
{
    let mut text = Vec::new(alloc);
    add_files(alloc, &mut text, &log.store)?;
    add_events(alloc, &mut text, jobs, log.events.as_slice())?;
    Ok(text)
}

/// Whether the events are of nodes of these jobs, as `write_log` asks.
pub fn are_of_nodes(jobs: &Jobs, events: &[Event]) -> bool
    ensures { IsTrue result ↔ AreOfNodes jobs.now events.now }
{
    events.iter().all(|event| event.node() < jobs.count())
}

/// Adds the lines of a store's files.
fn add_files(alloc: Global, text: &mut Vec<u8>, store: &Store) -> Result<(), LogHalt>
    ensures adds { OnOk result ((jobs : foot.Jobs)
        → Adds jobs (map file_entry store.now) text.old.items text.new.items) }
    ensures not_text { IfErr result (λ halt. halt ≡ LogHalt.NotText
        → list_all is_utf8 (keys_of store.now) ≡ false) }
    ensures in_order { IsInOrder store.now }
{
    for (path, file) in store.files() {
        add_file(alloc, text, path, file)?;
    }
    Ok(())
}

/// Adds the line of a file.
fn add_file(alloc: Global, text: &mut Vec<u8>, path: &Name, file: &File) -> Result<(), LogHalt>
    ensures adds { OnOk result ((jobs : foot.Jobs)
        → Adds jobs (file_entry (path.now, file.now) ∷ []) text.old.items text.new.items) }
    ensures not_text { IfErr result (λ halt. halt ≡ LogHalt.NotText → is_utf8 path.now ≡ false) }
{
    let mut line = empty_line(alloc)?;
    write_file(alloc, &mut line, path, file)?;
    Ok(end_line(text, line)?)
}

/// Adds the lines of events, which must be of nodes of these jobs.
fn add_events(
    alloc: Global,
    text: &mut Vec<u8>,
    jobs: &Jobs,
    events: &[Event],
) -> Result<(), LogHalt>
    requires { AreOfNodes jobs.now events.now }
    ensures adds { OnOk result (Adds jobs.now (map (λ event. Happens event) events.now)
        text.old.items text.new.items) }
    ensures not_text { IfErr result (λ halt. halt ≡ LogHalt.NotText
        → list_all is_utf8 (flat_map (names_in jobs.now) events.now) ≡ false) }
{
    for event in events {
        add_event(alloc, text, jobs, event)?;
    }
    Ok(())
}

/// Adds the line of an event. Its node's number must be below the count of nodes.
fn add_event(alloc: Global, text: &mut Vec<u8>, jobs: &Jobs, event: &Event) -> Result<(), LogHalt>
    requires { (step_of event.now).node < node_count jobs.now }
    ensures adds { OnOk result (Adds jobs.now (Happens event.now ∷ []) text.old.items text.new.items) }
    ensures not_text { IfErr result (λ halt. halt ≡ LogHalt.NotText
        → list_all is_utf8 (names_in jobs.now event.now) ≡ false) }
{
    let mut line = empty_line(alloc)?;
    write_event(alloc, &mut line, jobs, event)?;
    Ok(end_line(text, line)?)
}

/// A line with nothing in it, and room for one of usual length. It is written by itself, since a writer makes room of the
/// size of what stands before it, up to 16 KiB, and clears it. The only error is out of memory.
fn empty_line(alloc: Global) -> Result<Writer, AllocError>
    ensures before { IfOk result (λ line. line.before ≡ []) }
    ensures tokens { IfOk result (λ line. line.tokens ≡ []) }
{
    Ok(Writer::new(Vec::with_capacity(alloc, USUAL_LENGTH)?))
}

/// Puts a line that was written by itself behind a text, and ends it. The only error is out of memory.
fn end_line(text: &mut Vec<u8>, line: Writer) -> Result<(), AllocError>
    requires { line.before ≡ [] }
    ensures line { OnOk result (text.new.items ≡ text.old.items ++ (print line.tokens ++ 10 ∷ [])) }
    ensures reads_back { tokens (print line.tokens) ≡ line.tokens }
    ensures utf8 { IsUtf8 (print line.tokens) }
{
    let line = line.into_inner();
    text.extend_from_slice(line.as_slice())?;
    text.push(b'\n')?;
    Ok(())
}
