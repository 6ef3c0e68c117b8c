//! How each file and each event of a log is written: as an object of JSON.
ghost use Rattle.std.specs.Prelude.{◌≡◌, ◌<◌, ◌^◌, ◌∷◌, [], true, false, Some, IfErr, IfOk, OnErr, OnOk, codes, decimal, string_bytes};
ghost use Rattle.std.specs.List.{list_all};
ghost use Rattle.std.specs.Str.{is_utf8};
ghost use Rattle.hex.specs.Hex.{IsBytes, encode_lower};
ghost use Rattle.json.specs.Token.{key, number, string};
ghost use Rattle.mk_jobs.specs.Numbered.{number_of};
ghost use Rattle.mk_jobs.specs.Plan.{names_of};
ghost use Rattle.mk_jobs.specs.Jobs.{name_of, node_count};
ghost use Rattle.mk_sched.specs.Steps.{step_of};
ghost use Rattle.mk_log.specs.Gained.{Gains, tokens_of};
ghost use Rattle.mk_log.specs.Objects as spec;
ghost use Rattle.mk_log.specs.Spelled.{IsSeen, IsSized};
ghost use Rattle.mk_log.specs.Writing.{names_in};

use crate::writing::LogHalt;
use json::Writer;
use mk_jobs::jobs::Jobs;
use mk_name::name::Name;
use mk_sched::contents::Contents;
use mk_sched::event::Event;
use mk_sched::file::File;
use std::alloc::{AllocError, Global};

/// The text of a name. The error is `NotText`.
fn text_of(name: &Name) -> Result<&str, LogHalt>
    ensures text { IfOk result (λ text. text.now ≡ name.now) }
    ensures is_text { OnOk result (is_utf8 name.now ≡ true) }
    ensures not_text { OnErr result (is_utf8 name.now ≡ false) }
    ensures halt { IfErr result (λ halt. halt ≡ LogHalt.NotText) }
{
    match str::from_utf8(name.as_bytes()) {
        Ok(text) => Ok(text),
        Err(_) => Err(LogHalt::NotText),
    }
}

/// Bytes in lower case hexadecimal. The only error is out of memory.
fn hexadecimal(alloc: Global, bytes: &[u8]) -> Result<String, AllocError>
    ensures text { IfOk result (λ text. string_bytes text ≡ encode_lower bytes.now) }
    ensures bytes { IsBytes bytes.now }
{
    hex::encode(alloc, bytes)
}

/// Writes a member whose value is a text.
fn push_text(line: &mut Writer, name: &str, text: &str) -> Result<(), AllocError>
    ensures { OnOk result (Gains line.old line.new (key name.now ∷ string text.now ∷ [])) }
{
    line.key(name)?;
    line.string(text)
}

/// Writes the member that has bytes.
fn push_bytes(alloc: Global, line: &mut Writer, contents: &Contents) -> Result<(), AllocError>
    ensures member { OnOk result (Gains line.old line.new
        (key (codes "bytes") ∷ string (encode_lower contents.now) ∷ [])) }
    ensures bytes { OnOk result (IsBytes contents.now) }
{
    let text = hexadecimal(alloc, contents.as_bytes())?;
    push_text(line, "bytes", text.as_str())
}

/// Writes the member that has a time.
fn push_time(line: &mut Writer, time: u64) -> Result<(), AllocError>
    ensures { OnOk result (Gains line.old line.new (key (codes "time") ∷ number (decimal time) ∷ [])) }
{
    line.key("time")?;
    line.u64(time)
}

/// Writes the member that has what a look saw: `null` where the file is absent.
fn push_seen(alloc: Global, line: &mut Writer, seen: &Option<Contents>) -> Result<(), AllocError>
    ensures member { OnOk result (Gains line.old line.new
        (key (codes "bytes") ∷ tokens_of (spec.seen_data seen.now))) }
    ensures bytes { OnOk result (IsSeen seen.now) }
{
    match seen {
        Some(contents) => push_bytes(alloc, line, contents),
        None => {
            line.key("bytes")?;
            line.null()
        }
    }
}

/// Writes a file of the opening store.
fn push_file(alloc: Global, line: &mut Writer, path: &str, file: &File) -> Result<(), AllocError>
    ensures object { OnOk result (Gains line.old line.new (tokens_of (spec.file_object path.now file.now))) }
    ensures bytes { OnOk result (IsBytes file.now.bytes) }
    ensures time { OnOk result (file.now.time < 2 ^ 64) }
{
    line.begin_object()?;
    push_bytes(alloc, line, file.contents())?;
    push_text(line, "do", "file")?;
    push_text(line, "path", path)?;
    push_time(line, file.time())?;
    line.end_object()
}

/// Writes an event that names its node alone.
fn push_node(line: &mut Writer, word: &str, node: &str) -> Result<(), AllocError>
    ensures { OnOk result (Gains line.old line.new (tokens_of (spec.node_object word.now node.now))) }
{
    line.begin_object()?;
    push_text(line, "do", word)?;
    push_text(line, "node", node)?;
    line.end_object()
}

/// Writes a look.
fn push_look(
    alloc: Global,
    line: &mut Writer,
    node: &str,
    path: &str,
    seen: &Option<Contents>,
) -> Result<(), AllocError>
    ensures object { OnOk result (Gains line.old line.new
        (tokens_of (spec.look_object node.now path.now seen.now))) }
    ensures bytes { OnOk result (IsSeen seen.now) }
{
    line.begin_object()?;
    push_seen(alloc, line, seen)?;
    push_text(line, "do", "look")?;
    push_text(line, "node", node)?;
    push_text(line, "path", path)?;
    line.end_object()
}

/// Writes a put.
fn push_put(
    alloc: Global,
    line: &mut Writer,
    node: &str,
    path: &str,
    contents: &Contents,
    time: u64,
) -> Result<(), AllocError>
    ensures object { OnOk result (Gains line.old line.new
        (tokens_of (spec.put_object node.now path.now contents.now time))) }
    ensures bytes { OnOk result (IsBytes contents.now) }
{
    line.begin_object()?;
    push_bytes(alloc, line, contents)?;
    push_text(line, "do", "put")?;
    push_text(line, "node", node)?;
    push_text(line, "path", path)?;
    push_time(line, time)?;
    line.end_object()
}

/// Writes an erasure.
fn push_erase(line: &mut Writer, node: &str, path: &str) -> Result<(), AllocError>
    ensures { OnOk result (Gains line.old line.new (tokens_of (spec.erase_object node.now path.now))) }
{
    line.begin_object()?;
    push_text(line, "do", "erase")?;
    push_text(line, "node", node)?;
    push_text(line, "path", path)?;
    line.end_object()
}

/// Writes a file of the opening store. The error is `NotText` where its name is not UTF-8; else it is out of memory.
pub(crate) fn write_file(
    alloc: Global,
    line: &mut Writer,
    path: &Name,
    file: &File,
) -> Result<(), LogHalt>
    ensures object { OnOk result (Gains line.old line.new (tokens_of (spec.file_object path.now file.now))) }
    ensures is_text { OnOk result (is_utf8 path.now ≡ true) }
    ensures not_text { IfErr result (λ halt. halt ≡ LogHalt.NotText → is_utf8 path.now ≡ false) }
    ensures bytes { OnOk result (IsBytes file.now.bytes) }
    ensures time { OnOk result (file.now.time < 2 ^ 64) }
{
    let path = text_of(path)?;
    Ok(push_file(alloc, line, path, file)?)
}

/// Writes an event. Its node's number must be below the count of nodes. The error is `NotText` where the node's name or the
/// path is not UTF-8; else it is out of memory.
pub(crate) fn write_event(
    alloc: Global,
    line: &mut Writer,
    jobs: &Jobs,
    event: &Event,
) -> Result<(), LogHalt>
    requires { (step_of event.now).node < node_count jobs.now }
    ensures object { OnOk result (Gains line.old line.new (tokens_of (spec.event_object jobs.now event.now))) }
    ensures is_text { OnOk result (list_all is_utf8 (names_in jobs.now event.now) ≡ true) }
    ensures not_text { IfErr result (λ halt. halt ≡ LogHalt.NotText
        → list_all is_utf8 (names_in jobs.now event.now) ≡ false) }
    ensures sized { OnOk result (IsSized event.now) }
    ensures number { OnOk result (number_of (names_of jobs.now.plan.nodes)
        (name_of jobs.now (step_of event.now).node) ≡ Some (step_of event.now).node) }
{
    let node = text_of(jobs.name(event.node()))?;
    match event {
        Event::Skip(_) => push_node(line, "skip", node),
        Event::Start(_) => push_node(line, "start", node),
        Event::Look(_, path, seen) => push_look(alloc, line, node, text_of(path)?, seen),
        Event::Put(_, path, contents, time) => {
            push_put(alloc, line, node, text_of(path)?, contents, *time)
        }
        Event::Erase(_, path) => push_erase(line, node, text_of(path)?),
        Event::Finish(_) => push_node(line, "finish", node),
    }?;
    Ok(())
}
