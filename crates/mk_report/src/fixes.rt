//! The lines that fix a makefile, and those that fix tasks.
ghost use Rattle.std.specs.Prelude.{ℕ, ◌≡◌, ◌++◌, IfOk, List, OnOk};
ghost use Rattle.std.specs.List.{list_all};
ghost use Rattle.mk_jobs.specs.Jobs as nodes;
ghost use Rattle.mk_report.specs.FixText as spec;

use crate::counts::push_number;
use crate::names::{name_of, push_label};
use crate::safe::clash_of;
use crate::verb::writes_whole;
use mk_jobs::jobs::Jobs;
use mk_lines::lines::TEXT_LIMIT;
use mk_name::fault::Halt;
use mk_name::report::push_shown;
use mk_path::path::Path;
use mk_path::spelling::text_of;
use mk_text::spelling::plain_word;
use std::alloc::{AllocError, Global};

/// What the lines of some edges come to.
#[derive(Debug, Drop)]
pub enum FixLines {
    /// The text that goes behind the makefile.
    Text(Vec<u8>),
    /// A name of a node is no word of a makefile.
    NoWord,
    /// No text that is read has room for the lines.
    NoRoom,
}

/// What lines are for.
#[derive(Clone, Copy, Debug, PartialEq, Eq)]
pub enum Form {
    /// A makefile: a line has names as words, and its remark may end with what a phony prerequisite does.
    Makefile,
    /// A text of tasks: a line has labels, as they are shown.
    Tasks,
}

/// The lines that give the second node of each of these edges the first as a prerequisite, for behind this makefile (profile).
/// There is none without an edge. A line has the least path on which its nodes clash; two nodes that do not clash have no
/// line. The only error is out of memory.
pub fn fix_lines(
    alloc: Global,
    jobs: &Jobs,
    makefile: &[u8],
    edges: &[(u32, u32)],
) -> Result<FixLines, AllocError>
    ensures { IfOk result (spec.IsFixLinesOf makefile.now jobs.now edges.now) }
{
    if edges.is_empty() {
        return Ok(FixLines::Text(Vec::new(alloc)));
    }
    if !have_words(alloc, jobs, edges)? {
        return Ok(FixLines::NoWord);
    }
    let mut out = Vec::new(alloc);
    push_head(&mut out, makefile, edges.len())?;
    if push_lines(&mut out, alloc, jobs, edges)? {
        Ok(FixLines::Text(out))
    } else {
        Ok(FixLines::NoRoom)
    }
}

/// The lines that put each task that is the second of one of these edges behind the first, with their labels (profile). There
/// is none without an edge. A line has the least path on which its tasks clash; two that do not clash have no line. The only
/// error is out of memory.
pub fn task_lines(alloc: Global, jobs: &Jobs, edges: &[(u32, u32)]) -> Result<Vec<u8>, AllocError>
    ensures { IfOk result (λ text. spec.IsTaskLines jobs.now edges.now text.items) }
{
    let mut out = Vec::new(alloc);
    if edges.is_empty() {
        return Ok(out);
    }
    push_count(&mut out, edges.len())?;
    push_task_lines(&mut out, alloc, jobs, edges)?;
    Ok(out)
}

/// Whether the names of all nodes of some edges are words of a makefile. The only error is out of memory.
fn have_words(alloc: Global, jobs: &Jobs, edges: &[(u32, u32)]) -> Result<bool, AllocError>
    ensures { IfOk result (λ all. all ≡ list_all (spec.has_words jobs.now) edges.now) }
{
    for edge in edges {
        if !has_words(alloc, jobs, *edge)? {
            return Ok(false);
        }
    }
    Ok(true)
}

/// Whether the names of both nodes of an edge are words of a makefile. The only error is out of memory.
pub(crate) fn has_words(alloc: Global, jobs: &Jobs, edge: (u32, u32)) -> Result<bool, AllocError>
    ensures { IfOk result (λ both. both ≡ spec.has_words jobs.now edge) }
{
    let (first, second) = edge;
    if !has_word(alloc, jobs, first)? {
        return Ok(false);
    }
    has_word(alloc, jobs, second)
}

/// Whether the name of a node is a word of a makefile. What is no node has no name. The only error is out of memory.
pub(crate) fn has_word(alloc: Global, jobs: &Jobs, number: u32) -> Result<bool, AllocError>
    ensures { IfOk result (λ is. is ≡ spec.has_word jobs.now number) }
{
    is_makefile_word(alloc, jobs, name_of(jobs, number))
}

/// Whether a name is a word of a makefile. The only error is out of memory.
pub(crate) fn is_makefile_word(alloc: Global, jobs: &Jobs, name: &[u8]) -> Result<bool, AllocError>
    ensures { IfOk result (λ is. is ≡ spec.is_makefile_word jobs.now name.now) }
{
    match plain_word(alloc, name, jobs.root()) {
        Ok(_) => Ok(true),
        Err(Halt::Fault(_)) => Ok(false),
        Err(Halt::Memory) => Err(AllocError),
    }
}

/// Whether the last line of a makefile is open.
fn is_open(makefile: &[u8]) -> bool
    ensures { result ≡ spec.is_open makefile.now }
{
    match makefile {
        [.., b'\\', b'\n'] => true,
        [.., b'\n'] => false,
        _ => true,
    }
}

/// Puts at the end what stands before the lines of so many edges: what ends an open line of the makefile, and how many lines
/// follow. The only error is out of memory.
fn push_head(out: &mut Vec<u8>, makefile: &[u8], count: usize) -> Result<(), AllocError>
    ensures { OnOk result (out.new.items ≡ out.old.items ++ spec.fix_head makefile.now count) }
{
    if is_open(makefile) {
        out.extend_from_slice(b"\n\n")?;
    }
    push_count(out, count)
}

/// Puts at the end how many lines follow. The only error is out of memory.
fn push_count(out: &mut Vec<u8>, count: usize) -> Result<(), AllocError>
    ensures { OnOk result (out.new.items ≡ out.old.items ++ spec.lines_count count) }
{
    push_number(out, b"# race fix: lines", count as u64)
}

/// Puts the lines of edges at the end, and answers whether all of them are there: it stops where no text that is read has room
/// for more. The only error is out of memory.
fn push_lines(
    out: &mut Vec<u8>,
    alloc: Global,
    jobs: &Jobs,
    edges: &[(u32, u32)],
) -> Result<bool, AllocError>
    ensures { IfOk result (spec.HasPushed jobs.now edges.now out.old.items out.new.items) }
{
    for edge in edges {
        push_fix_line(out, alloc, jobs, *edge, Form::Makefile)?;
        if out.len() > TEXT_LIMIT {
            return Ok(false);
        }
    }
    Ok(true)
}

/// Puts the lines of edges of tasks at the end. The only error is out of memory.
fn push_task_lines(
    out: &mut Vec<u8>,
    alloc: Global,
    jobs: &Jobs,
    edges: &[(u32, u32)],
) -> Result<(), AllocError>
    ensures { OnOk result ((lines : List ℕ) × spec.AreFixLines Form.Tasks jobs.now edges.now lines
        × (out.new.items ≡ out.old.items ++ lines)) }
{
    for edge in edges {
        push_fix_line(out, alloc, jobs, *edge, Form::Tasks)?;
    }
    Ok(())
}

/// Puts the line of an edge at the end, with the least path on which its nodes clash; none where they do not clash. The only
/// error is out of memory.
fn push_fix_line(
    out: &mut Vec<u8>,
    alloc: Global,
    jobs: &Jobs,
    edge: (u32, u32),
    form: Form,
) -> Result<(), AllocError>
    ensures { OnOk result ((text : List ℕ) × spec.IsFixLine form jobs.now edge text
        × (out.new.items ≡ out.old.items ++ text)) }
{
    let (first, second) = edge;
    match clash_of(jobs, first, second) {
        Some(path) => push_line(out, alloc, jobs, path, edge, form),
        None => Ok(()),
    }
}

/// Puts the line of an edge at the end, with this path. The only error is out of memory.
fn push_line(
    out: &mut Vec<u8>,
    alloc: Global,
    jobs: &Jobs,
    path: &Path,
    edge: (u32, u32),
    form: Form,
) -> Result<(), AllocError>
    ensures { OnOk result (out.new.items ≡ out.old.items ++ spec.fix_line form jobs.now path.now edge) }
{
    let (first, second) = edge;
    push_written(out, jobs, second, form)?;
    out.extend_from_slice(b": ")?;
    push_written(out, jobs, first, form)?;
    out.extend_from_slice(b" # ")?;
    push_clash(out, alloc, jobs, path, edge)?;
    push_end(out, jobs, edge, form)?;
    out.push(b'\n')?;
    Ok(())
}

/// Puts a node at the end, as a line names it. The only error is out of memory.
fn push_written(out: &mut Vec<u8>, jobs: &Jobs, number: u32, form: Form) -> Result<(), AllocError>
    ensures { OnOk result (out.new.items ≡ out.old.items ++ spec.written_name form jobs.now number) }
{
    match form {
        Form::Makefile => out.extend_from_slice(name_of(jobs, number)),
        Form::Tasks => push_label(out, jobs, number),
    }
}

/// Puts at the end what ends the remark of an edge. The only error is out of memory.
fn push_end(out: &mut Vec<u8>, jobs: &Jobs, edge: (u32, u32), form: Form) -> Result<(), AllocError>
    ensures { OnOk result (out.new.items ≡ out.old.items ++ spec.remark_end form jobs.now edge) }
{
    match form {
        Form::Makefile => push_phony(out, jobs, edge),
        Form::Tasks => Ok(()),
    }
}

/// Puts at the end what the two nodes of an edge do with a path. The only error is out of memory.
fn push_clash(
    out: &mut Vec<u8>,
    alloc: Global,
    jobs: &Jobs,
    path: &Path,
    edge: (u32, u32),
) -> Result<(), AllocError>
    ensures { OnOk result (out.new.items ≡ out.old.items ++ spec.clash_text jobs.now edge path.now) }
{
    let (first, second) = edge;
    let spelled = text_of(alloc, path)?;
    if !writes_whole(jobs, first, path) {
        return push_reader(out, jobs, first, &spelled);
    }
    let both = writes_whole(jobs, second, path);
    let words = if both { "both write " } else { "reads " };
    out.extend_from_slice(words.as_bytes())?;
    push_shown(out, &spelled)
}

/// Puts at the end that a path is written, which this node reads before it. The only error is out of memory.
fn push_reader(out: &mut Vec<u8>, jobs: &Jobs, first: u32, spelled: &[u8]) -> Result<(), AllocError>
    ensures { OnOk result (out.new.items ≡ out.old.items ++ spec.reader_text jobs.now first spelled.now) }
{
    out.extend_from_slice(b"writes ")?;
    push_shown(out, spelled)?;
    out.extend_from_slice(b", which ")?;
    push_label(out, jobs, first)?;
    out.extend_from_slice(b" reads before it")
}

/// Puts at the end what follows where the first node of an edge is phony. The only error is out of memory.
fn push_phony(out: &mut Vec<u8>, jobs: &Jobs, edge: (u32, u32)) -> Result<(), AllocError>
    ensures { OnOk result (out.new.items ≡ out.old.items ++ spec.phony_text jobs.now edge) }
{
    let (first, second) = edge;
    if !is_phony(jobs, first) {
        return Ok(());
    }
    out.extend_from_slice(b"; ")?;
    push_label(out, jobs, first)?;
    out.extend_from_slice(b" is phony, so ")?;
    push_label(out, jobs, second)?;
    out.extend_from_slice(b" is made each time")
}

/// Whether a node is phony. What is no node is not.
fn is_phony(jobs: &Jobs, number: u32) -> bool
    ensures { result ≡ nodes.is_phony jobs.now number }
{
    if number >= jobs.count() {
        return false;
    }
    jobs.is_phony(number)
}
