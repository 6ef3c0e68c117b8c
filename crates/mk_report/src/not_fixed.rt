//! What is said of a build where no lines fix it, and of tasks that would have too many edges.
ghost use Rattle.std.specs.Prelude.{◌≡◌, ◌++◌, IfOk, OnOk, map};
ghost use Rattle.std.specs.List.{flat_map};
ghost use Rattle.std.specs.Option.{option_map};
ghost use Rattle.mk_name.specs.Shown.{kind_line, name_line, place_line};
ghost use Rattle.mk_jobs.specs.Jobs as nodes;
ghost use Rattle.mk_report.specs.FixText as spec;

use crate::fixes::{Form, has_words};
use crate::names::{push_label, push_name};
use mk_jobs::jobs::Jobs;
use mk_jobs::maker::Maker;
use mk_name::fault::{Fault, Kind, Source};
use mk_name::name::Name;
use mk_name::report::{push_shown, push_source};
use std::alloc::{AllocError, Global};

/// The text where these edges are needed, and no lines of a makefile add just them (profile): comments alone. Each edge has a
/// line, with what keeps its line from being just that edge, if that is known; and where the lines were refused, the refusal
/// follows. The only error is out of memory.
pub fn not_fixed_report(
    alloc: Global,
    jobs: &Jobs,
    edges: &[(u32, u32)],
    refusal: Option<&Fault>,
) -> Result<Vec<u8>, AllocError>
    ensures { IfOk result (λ text. text.items
        ≡ spec.not_fixed_text jobs.now edges.now (option_map (λ fault. fault.now) refusal.entry)) }
{
    let mut out = needs_report(alloc, jobs, edges, Form::Makefile)?;
    if let Some(fault) = refusal {
        push_refusal(&mut out, alloc, fault)?;
    }
    Ok(out)
}

/// The text where tasks need these edges, and would have too many with them (profile): comments alone, one for each edge. The
/// only error is out of memory.
pub fn task_needs_report(
    alloc: Global,
    jobs: &Jobs,
    edges: &[(u32, u32)],
) -> Result<Vec<u8>, AllocError>
    ensures { IfOk result (λ text. text.items ≡ spec.needs_text Form.Tasks jobs.now edges.now) }
{
    needs_report(alloc, jobs, edges, Form::Tasks)
}

/// The text of needed edges. The only error is out of memory.
fn needs_report(
    alloc: Global,
    jobs: &Jobs,
    edges: &[(u32, u32)],
    form: Form,
) -> Result<Vec<u8>, AllocError>
    ensures { IfOk result (λ text. text.items ≡ spec.needs_text form jobs.now edges.now) }
{
    let mut out = Vec::from_slice(alloc, b"# not fixed\n")?;
    for edge in edges {
        push_need(&mut out, alloc, jobs, *edge, form)?;
    }
    Ok(out)
}

/// Puts the line of a needed edge at the end. The only error is out of memory.
fn push_need(
    out: &mut Vec<u8>,
    alloc: Global,
    jobs: &Jobs,
    edge: (u32, u32),
    form: Form,
) -> Result<(), AllocError>
    ensures { OnOk result (out.new.items ≡ out.old.items ++ spec.need_line form jobs.now edge) }
{
    let (first, second) = edge;
    out.extend_from_slice(b"# needs ")?;
    push_label(out, jobs, second)?;
    push_name(out, jobs, first)?;
    push_obstacle(out, alloc, jobs, edge, form)?;
    out.push(b'\n')?;
    Ok(())
}

/// Puts at the end what keeps the line of an edge from being just that edge. The only error is out of memory.
fn push_obstacle(
    out: &mut Vec<u8>,
    alloc: Global,
    jobs: &Jobs,
    edge: (u32, u32),
    form: Form,
) -> Result<(), AllocError>
    ensures { OnOk result (out.new.items ≡ out.old.items ++ spec.obstacle_text form jobs.now edge) }
{
    match form {
        Form::Makefile => {
            let (_first, second) = edge;
            let words = has_words(alloc, jobs, edge)?;
            out.extend_from_slice(obstacle(jobs, second, words).as_bytes())
        }
        Form::Tasks => Ok(()),
    }
}

/// What keeps a line from being just an edge to this node, if that is known, where it is known whether both names are words.
fn obstacle(jobs: &Jobs, second: u32, words: bool) -> &'static str
    ensures { result.now ≡ spec.obstacle_of jobs.now second words }
{
    if !words {
        return " name";
    }
    if second >= jobs.count() {
        return "";
    }
    match jobs.maker(second) {
        Maker::Default => " default",
        Maker::Inferred if !jobs.is_listed(second) => " exists",
        _ => "",
    }
}

/// Puts the lines of a refusal at the end, each behind a sign. The only error is out of memory.
fn push_refusal(out: &mut Vec<u8>, alloc: Global, fault: &Fault) -> Result<(), AllocError>
    ensures { OnOk result (out.new.items ≡ out.old.items ++ spec.reported_text fault.now) }
{
    out.extend_from_slice(b"# refused\n")?;
    push_kind(out, alloc, fault.kind())?;
    push_place(out, alloc, fault.source(), fault.place())?;
    push_names(out, fault.names())
}

/// Puts the number and the word of a kind at the end, behind a sign. The only error is out of memory.
fn push_kind(out: &mut Vec<u8>, alloc: Global, kind: Kind) -> Result<(), AllocError>
    ensures { OnOk result (out.new.items ≡ out.old.items ++ spec.behind_sign (kind_line kind)) }
{
    let number = kind.number();
    let word = kind.word();
    let text = format!(in alloc; "# F{number} {word}\n")?;
    out.extend_from_slice(text.as_bytes())
}

/// Puts the source and the place of a fault at the end, behind a sign. The only error is out of memory.
fn push_place(
    out: &mut Vec<u8>,
    alloc: Global,
    source: &Source,
    place: u64,
) -> Result<(), AllocError>
    ensures { OnOk result (out.new.items ≡ out.old.items ++ spec.behind_sign (place_line source.now place)) }
{
    out.extend_from_slice(b"# at ")?;
    push_source(out, source)?;
    let text = format!(in alloc; " {place}\n")?;
    out.extend_from_slice(text.as_bytes())
}

/// Puts the lines of names at the end, each behind a sign. The only error is out of memory.
fn push_names(out: &mut Vec<u8>, names: &[Name]) -> Result<(), AllocError>
    ensures { OnOk result (out.new.items ≡ out.old.items ++ flat_map spec.reported_name names.now) }
{
    for name in names {
        out.extend_from_slice(b"# name ")?;
        push_shown(out, name.as_bytes())?;
        out.push(b'\n')?;
    }
    Ok(())
}
