//! What is said beside an answer: why the input is refused, and the note.
ghost use Rattle.std.specs.Prelude.{◌≡◌, ◌++◌, IfOk, OnOk, option_map};
ghost use Rattle.mk_program.specs.FaultText as spec;

use crate::fault_words::words_of;
use mk_name::fault::{Fault, Kind, Source};
use mk_name::name::Name;
use mk_name::report::push_shown;
use mk_request::requests::{
    BuildArgs, JobArgs, Request, TaskArgs, TaskQuestion, is_quiet, other_input,
};
use std::alloc::{AllocError, Global};

/// The line of the fault that refuses the input, where there is one, and the note; or nothing, where the request is quiet. The only
/// error is out of memory.
pub(crate) fn said_beside(
    alloc: Global,
    request: &Request<'_>,
    fault: &Option<Fault>,
    note: Vec<u8>,
) -> Result<Vec<u8>, AllocError>
    ensures { IfOk result (λ said. said.items ≡ spec.said_beside request.now fault.now note.items) }
{
    if is_quiet(request) {
        return Ok(Vec::new(alloc));
    }
    match fault {
        Some(fault) => line_and_note(alloc, request, fault, note.as_slice()),
        None => Ok(note),
    }
}

/// The line of a fault, and a note behind it. The only error is out of memory.
fn line_and_note(
    alloc: Global,
    request: &Request<'_>,
    fault: &Fault,
    note: &[u8],
) -> Result<Vec<u8>, AllocError>
    ensures { IfOk result (λ said. said.items ≡ spec.fault_line request.now fault.now ++ note.now) }
{
    let mut out = Vec::new(alloc);
    push_line(&mut out, alloc, request, fault)?;
    out.extend_from_slice(note)?;
    Ok(out)
}

/// Puts the line of a fault at the end. The only error is out of memory.
fn push_line(
    out: &mut Vec<u8>,
    alloc: Global,
    request: &Request<'_>,
    fault: &Fault,
) -> Result<(), AllocError>
    ensures { OnOk result (out.new.items ≡ out.old.items ++ spec.fault_line request.now fault.now) }
{
    push_place(out, alloc, request, fault.source(), fault.place())?;
    out.extend_from_slice(b": ")?;
    out.extend_from_slice(words_of(fault.kind()).as_bytes())?;
    push_names(out, fault.names())?;
    push_more(out, alloc, fault.kind())
}

/// Puts at the end where a fault of this source and this place is.
fn push_place(
    out: &mut Vec<u8>,
    alloc: Global,
    request: &Request<'_>,
    source: &Source,
    place: u64,
) -> Result<(), AllocError>
    ensures { OnOk result (out.new.items ≡ out.old.items ++ spec.place_text request.now source.now place) }
{
    push_file(out, path_of(request, source), source)?;
    push_at(out, alloc, line_of(source, place))
}

/// Puts at the end in which file a fault is, or who speaks of it.
fn push_file(out: &mut Vec<u8>, path: Option<&str>, source: &Source) -> Result<(), AllocError>
    ensures { OnOk result (out.new.items
        ≡ out.old.items ++ spec.file_text (option_map (λ text. text.now) path.entry) source.now) }
{
    match path {
        Some(path) => out.extend_from_slice(path.as_bytes()),
        None => push_speaker(out, source),
    }
}

/// Puts at the end who speaks of a fault that is in no file.
fn push_speaker(out: &mut Vec<u8>, source: &Source) -> Result<(), AllocError>
    ensures { OnOk result (out.new.items ≡ out.old.items ++ spec.speaker source.now) }
{
    match source {
        Source::Include(name) => push_shown(out, name.as_bytes()),
        _ => out.extend_from_slice(b"race"),
    }
}

/// Puts a line at the end, behind a colon, where there is one.
fn push_at(out: &mut Vec<u8>, alloc: Global, line: u64) -> Result<(), AllocError>
    ensures { OnOk result (out.new.items ≡ out.old.items ++ spec.at_line line) }
{
    if line == 0 {
        return Ok(());
    }
    let text = format!(in alloc; ":{line}")?;
    out.extend_from_slice(text.as_bytes())
}

/// Puts names at the end, behind a colon, where there are any.
fn push_names(out: &mut Vec<u8>, names: &[Name]) -> Result<(), AllocError>
    ensures { OnOk result (out.new.items ≡ out.old.items ++ spec.names_text names.now) }
{
    if names.is_empty() {
        return Ok(());
    }
    out.push(b':')?;
    for name in names {
        out.push(b' ')?;
        push_shown(out, name.as_bytes())?;
    }
    Ok(())
}

/// Puts at the end how race-explain is asked for more, and a newline.
fn push_more(out: &mut Vec<u8>, alloc: Global, kind: Kind) -> Result<(), AllocError>
    ensures { OnOk result (out.new.items ≡ out.old.items ++ spec.more_text kind) }
{
    let number = kind.number();
    let text = format!(in alloc; " (race-explain F{number})\n")?;
    out.extend_from_slice(text.as_bytes())
}

/// The line that a fault is at, and 0 where its place is no line.
fn line_of(source: &Source, place: u64) -> u64
    ensures { result ≡ spec.line_of source.now place }
{
    match source {
        Source::Settings | Source::Includes | Source::Graph | Source::Jobs => 0,
        _ => place,
    }
}

/// The path that was given for a text.
fn path_of<'a>(request: &Request<'a>, source: &Source) -> Option<&'a str>
    ensures { option_map (λ path. path.now) result ≡ spec.path_of request.now source.now }
{
    match request {
        Request::Order(build) => build_path(build, source),
        Request::Jobs(args) => job_path(args, source),
        Request::Tasks(args) => task_path(args, source),
    }
}

/// The path of a text of a build.
fn build_path<'a>(build: &BuildArgs<'a>, source: &Source) -> Option<&'a str>
    ensures { option_map (λ path. path.now) result ≡ spec.build_path build.now source.now }
{
    match source {
        Source::Makefile => Some(build.makefile),
        Source::Listing => Some(build.listing),
        Source::Base => build.base,
        Source::Includes => build.includes,
        _ => None,
    }
}

/// The path of a text that is read for a question about the jobs of a build.
fn job_path<'a>(args: &JobArgs<'a>, source: &Source) -> Option<&'a str>
    ensures { option_map (λ path. path.now) result ≡ spec.job_path args.now source.now }
{
    match source {
        Source::Footprints => Some(args.footprints),
        Source::Proof | Source::Log => further_path(args),
        _ => build_path(&args.build, source),
    }
}

/// The path of the further input of a question about jobs, where it has one.
fn further_path<'a>(args: &JobArgs<'a>) -> Option<&'a str>
    ensures { option_map (λ path. path.now) result ≡ spec.further_path args.now }
{
    match other_input(args.question) {
        Some(known) => Some(known.path),
        None => None,
    }
}

/// The path of a text that is read for a question about tasks.
fn task_path<'a>(args: &TaskArgs<'a>, source: &Source) -> Option<&'a str>
    ensures { option_map (λ path. path.now) result ≡ spec.task_path args.now source.now }
{
    match source {
        Source::Tasks => Some(args.tasks),
        Source::Listing | Source::Proof => other_path(args.question),
        _ => None,
    }
}

/// The path of the listing or the proof that a question about tasks has beside them, where it has one.
fn other_path<'a>(question: TaskQuestion<'a>) -> Option<&'a str>
    ensures { option_map (λ path. path.now) result ≡ spec.other_path question.entry }
{
    match question {
        TaskQuestion::Verify { proof, .. } => Some(proof),
        TaskQuestion::Missing { listing } => Some(listing),
        _ => None,
    }
}
