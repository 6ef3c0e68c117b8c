//! The report of what keeps jobs from being declared.
ghost use Rattle.std.specs.Prelude.{◌≡◌, ◌++◌, IfOk, OnOk, zip};
ghost use Rattle.std.specs.List.{flat_map};
ghost use Rattle.mk_report.specs.MissingText as spec;

use crate::adding::{push_missing_add, push_shared_add};
use crate::counts::{push_counts, push_number};
use crate::names::push_name;
use mk_jobs::jobs::Jobs;
use mk_missing::violations::Violations;
use mk_name::report::push_shown;
use mk_path::path::Path;
use mk_path::spelling::text_of;
use mk_text::listing::Listing;
use std::alloc::{AllocError, Global};

/// The report of what was found in jobs (profile) with this listing, which have so many races: how many violations there are of
/// each kind, how many inputs are unlisted, how many races, the counts, and a line for each violation, kind by kind, in the order
/// given. Behind it stands the line that declares it, if there is one: for an input that is missing and for a file that is shared,
/// where a makefile can have it. A pair whose place is that of no file has no line. The only error is out of memory.
pub fn missing_report(
    alloc: Global,
    jobs: &Jobs,
    listing: &Listing,
    races: usize,
    found: &Violations,
) -> Result<Vec<u8>, AllocError>
    ensures { IfOk result (λ text. text.items ≡ spec.missing_text jobs.now listing.now races found.now) }
{
    let mut out = Vec::new(alloc);
    push_head(&mut out, jobs, races, found)?;
    push_all_missing(&mut out, alloc, jobs, listing, found)?;
    push_all_late(&mut out, alloc, jobs, found)?;
    push_all_shared(&mut out, alloc, jobs, found)?;
    push_all_present(&mut out, jobs, &found.present)?;
    push_all_outputs(&mut out, alloc, found)?;
    push_all_trees(&mut out, alloc, jobs, found)?;
    Ok(out)
}

/// Puts at the end what stands before the lines of violations. The only error is out of memory.
fn push_head(
    out: &mut Vec<u8>,
    jobs: &Jobs,
    races: usize,
    found: &Violations,
) -> Result<(), AllocError>
    ensures { OnOk result (out.new.items ≡ out.old.items ++ spec.missing_head jobs.now races found.now) }
{
    let present = found.present.len() as u64 + found.outputs.len() as u64;
    push_number(out, b"missing", found.missing.len() as u64)?;
    push_number(out, b"late", found.late.len() as u64)?;
    push_number(out, b"shared", found.shared.len() as u64)?;
    push_number(out, b"present", present)?;
    push_number(out, b"tree", found.trees.len() as u64)?;
    push_number(out, b"unlisted", found.unlisted as u64)?;
    push_number(out, b"races", races as u64)?;
    push_counts(out, jobs)
}

/// Puts the lines of all missing inputs at the end. The only error is out of memory.
fn push_all_missing(
    out: &mut Vec<u8>,
    alloc: Global,
    jobs: &Jobs,
    listing: &Listing,
    found: &Violations,
) -> Result<(), AllocError>
    ensures { OnOk result (out.new.items
        ≡ out.old.items ++ flat_map (spec.missing_pair jobs.now listing.now found.now) found.now.missing.items) }
{
    for pair in &found.missing {
        push_missing(out, alloc, jobs, listing, found, *pair)?;
    }
    Ok(())
}

/// Puts the lines of all late inputs at the end. The only error is out of memory.
fn push_all_late(
    out: &mut Vec<u8>,
    alloc: Global,
    jobs: &Jobs,
    found: &Violations,
) -> Result<(), AllocError>
    ensures { OnOk result (out.new.items
        ≡ out.old.items ++ flat_map (spec.late_pair jobs.now found.now) (zip found.now.late.items found.now.late_by.items)) }
{
    for (pair, writer) in found.late.iter().zip(&found.late_by) {
        push_late(out, alloc, jobs, found, *pair, *writer)?;
    }
    Ok(())
}

/// Puts the lines of all shared files at the end. The only error is out of memory.
fn push_all_shared(
    out: &mut Vec<u8>,
    alloc: Global,
    jobs: &Jobs,
    found: &Violations,
) -> Result<(), AllocError>
    ensures { OnOk result (out.new.items
        ≡ out.old.items ++ flat_map (spec.shared_pair jobs.now found.now) found.now.shared.items) }
{
    for pair in &found.shared {
        push_shared(out, alloc, jobs, found, *pair)?;
    }
    Ok(())
}

/// Puts the lines of nodes at the end whose files are listed. The only error is out of memory.
fn push_all_present(out: &mut Vec<u8>, jobs: &Jobs, nodes: &[u32]) -> Result<(), AllocError>
    ensures { OnOk result (out.new.items ≡ out.old.items ++ flat_map (spec.present_line jobs.now) nodes.now) }
{
    for node in nodes {
        push_present(out, jobs, *node)?;
    }
    Ok(())
}

/// Puts the lines of further listed outputs at the end. The only error is out of memory.
fn push_all_outputs(out: &mut Vec<u8>, alloc: Global, found: &Violations) -> Result<(), AllocError>
    ensures { OnOk result (out.new.items ≡ out.old.items ++ flat_map (spec.output_at found.now) found.now.outputs.items) }
{
    for place in &found.outputs {
        push_output(out, alloc, found, *place)?;
    }
    Ok(())
}

/// Puts the lines of trees that recipes write at the end. The only error is out of memory.
fn push_all_trees(
    out: &mut Vec<u8>,
    alloc: Global,
    jobs: &Jobs,
    found: &Violations,
) -> Result<(), AllocError>
    ensures { OnOk result (out.new.items ≡ out.old.items ++ flat_map (spec.tree_at jobs.now found.now) found.now.trees.items) }
{
    for place in &found.trees {
        push_tree(out, alloc, jobs, found, *place)?;
    }
    Ok(())
}

/// Puts the lines of a missing input at the end; none where its place is that of no file. The only error is out of memory.
fn push_missing(
    out: &mut Vec<u8>,
    alloc: Global,
    jobs: &Jobs,
    listing: &Listing,
    found: &Violations,
    pair: (u32, u32),
) -> Result<(), AllocError>
    ensures { OnOk result (out.new.items ≡ out.old.items ++ spec.missing_pair jobs.now listing.now found.now pair) }
{
    let (place, n) = pair;
    let last = last_at(found, place);
    match found.files.get(place as usize) {
        Some(path) => push_missing_lines(out, alloc, jobs, listing, path, n, last),
        None => Ok(()),
    }
}

/// Puts the line of a late input and a writer at the end; none where its place is that of no file. The only error is out of
/// memory.
fn push_late(
    out: &mut Vec<u8>,
    alloc: Global,
    jobs: &Jobs,
    found: &Violations,
    pair: (u32, u32),
    writer: u32,
) -> Result<(), AllocError>
    ensures { OnOk result (out.new.items ≡ out.old.items ++ spec.late_pair jobs.now found.now (pair, writer)) }
{
    let (place, n) = pair;
    match found.files.get(place as usize) {
        Some(path) => push_late_line(out, alloc, jobs, path, n, writer),
        None => Ok(()),
    }
}

/// Puts the lines of a shared file at the end; none where its place is that of no file. The only error is out of memory.
fn push_shared(
    out: &mut Vec<u8>,
    alloc: Global,
    jobs: &Jobs,
    found: &Violations,
    pair: (u32, u32),
) -> Result<(), AllocError>
    ensures { OnOk result (out.new.items ≡ out.old.items ++ spec.shared_pair jobs.now found.now pair) }
{
    let (place, n) = pair;
    let last = last_at(found, place);
    match found.files.get(place as usize) {
        Some(path) => push_shared_lines(out, alloc, jobs, path, n, last),
        None => Ok(()),
    }
}

/// Puts the line of a node at the end whose file is listed. The only error is out of memory.
fn push_present(out: &mut Vec<u8>, jobs: &Jobs, n: u32) -> Result<(), AllocError>
    ensures { OnOk result (out.new.items ≡ out.old.items ++ spec.present_line jobs.now n) }
{
    out.extend_from_slice(b"present")?;
    push_name(out, jobs, n)?;
    out.push(b'\n')?;
    Ok(())
}

/// Puts the line of a listed output at the end; none where its place is that of no file. The only error is out of memory.
fn push_output(
    out: &mut Vec<u8>,
    alloc: Global,
    found: &Violations,
    place: u32,
) -> Result<(), AllocError>
    ensures { OnOk result (out.new.items ≡ out.old.items ++ spec.output_at found.now place) }
{
    match found.files.get(place as usize) {
        Some(path) => push_output_line(out, alloc, path),
        None => Ok(()),
    }
}

/// Puts the line of a tree that recipes write at the end; none where its place is that of no file. The only error is out of
/// memory.
fn push_tree(
    out: &mut Vec<u8>,
    alloc: Global,
    jobs: &Jobs,
    found: &Violations,
    place: u32,
) -> Result<(), AllocError>
    ensures { OnOk result (out.new.items ≡ out.old.items ++ spec.tree_at jobs.now found.now place) }
{
    let last = last_at(found, place);
    match found.files.get(place as usize) {
        Some(path) => push_tree_line(out, alloc, jobs, last, path),
        None => Ok(()),
    }
}

/// Puts the line at the end that a file is listed, which a recipe writes. The only error is out of memory.
fn push_output_line(out: &mut Vec<u8>, alloc: Global, path: &Path) -> Result<(), AllocError>
    ensures { OnOk result (out.new.items ≡ out.old.items ++ spec.output_line path.now) }
{
    let spelled = text_of(alloc, path)?;
    out.extend_from_slice(b"present ")?;
    push_shown(out, &spelled)?;
    out.push(b'\n')?;
    Ok(())
}

/// Puts the line at the end that the last writer of a tree writes it. The only error is out of memory.
fn push_tree_line(
    out: &mut Vec<u8>,
    alloc: Global,
    jobs: &Jobs,
    last: Option<u32>,
    path: &Path,
) -> Result<(), AllocError>
    ensures { OnOk result (out.new.items ≡ out.old.items ++ spec.tree_line jobs.now last path.now) }
{
    push_path(out, alloc, b"tree", path)?;
    push_last(out, jobs, last)?;
    out.push(b'\n')?;
    Ok(())
}

/// The last writer of the file at a place, if there is one.
fn last_at(found: &Violations, place: u32) -> Option<u32>
    ensures { result ≡ spec.last_at found.now place }
{
    match found.last.get(place as usize) {
        Some(last) => *last,
        None => None,
    }
}

/// Puts the line at the end that a node does not watch a path that it reads, and what declares it. The only error is out of
/// memory.
fn push_missing_lines(
    out: &mut Vec<u8>,
    alloc: Global,
    jobs: &Jobs,
    listing: &Listing,
    path: &Path,
    n: u32,
    last: Option<u32>,
) -> Result<(), AllocError>
    ensures { OnOk result (out.new.items
        ≡ out.old.items ++ spec.missing_lines jobs.now listing.now n last path.now) }
{
    push_path(out, alloc, b"missing", path)?;
    push_reads(out, jobs, n)?;
    push_last(out, jobs, last)?;
    out.push(b'\n')?;
    push_missing_add(out, alloc, jobs, listing, path, n, last)
}

/// Puts the line at the end that a node reads a path, and a writer of it is not before the node. The only error is out of
/// memory.
fn push_late_line(
    out: &mut Vec<u8>,
    alloc: Global,
    jobs: &Jobs,
    path: &Path,
    n: u32,
    writer: u32,
) -> Result<(), AllocError>
    ensures { OnOk result (out.new.items ≡ out.old.items ++ spec.late_line jobs.now n writer path.now) }
{
    push_path(out, alloc, b"late", path)?;
    push_reads(out, jobs, n)?;
    push_writes(out, jobs, writer)?;
    out.push(b'\n')?;
    Ok(())
}

/// Puts the line at the end that a node and a last writer share a path, and what declares it. The only error is out of memory.
fn push_shared_lines(
    out: &mut Vec<u8>,
    alloc: Global,
    jobs: &Jobs,
    path: &Path,
    n: u32,
    last: Option<u32>,
) -> Result<(), AllocError>
    ensures { OnOk result (out.new.items ≡ out.old.items ++ spec.shared_lines jobs.now n last path.now) }
{
    push_path(out, alloc, b"shared", path)?;
    push_writes(out, jobs, n)?;
    push_last(out, jobs, last)?;
    out.push(b'\n')?;
    push_shared_add(out, alloc, jobs, n, last)
}

/// Puts a word and a path at the end, as a line begins. The only error is out of memory.
fn push_path(out: &mut Vec<u8>, alloc: Global, word: &[u8], path: &Path) -> Result<(), AllocError>
    ensures { OnOk result (out.new.items ≡ out.old.items ++ spec.path_text word.now path.now) }
{
    let spelled = text_of(alloc, path)?;
    out.extend_from_slice(word)?;
    out.push(b' ')?;
    push_shown(out, &spelled)?;
    out.extend_from_slice(b" :")
}

/// Puts at the end that a node reads. The only error is out of memory.
fn push_reads(out: &mut Vec<u8>, jobs: &Jobs, n: u32) -> Result<(), AllocError>
    ensures { OnOk result (out.new.items ≡ out.old.items ++ spec.reads_text jobs.now n) }
{
    push_name(out, jobs, n)?;
    out.extend_from_slice(b" reads")
}

/// Puts at the end that a node writes. The only error is out of memory.
fn push_writes(out: &mut Vec<u8>, jobs: &Jobs, n: u32) -> Result<(), AllocError>
    ensures { OnOk result (out.new.items ≡ out.old.items ++ spec.writes_text jobs.now n) }
{
    push_name(out, jobs, n)?;
    out.extend_from_slice(b" writes")
}

/// Puts at the end that the last writer writes, if there is one. The only error is out of memory.
fn push_last(out: &mut Vec<u8>, jobs: &Jobs, last: Option<u32>) -> Result<(), AllocError>
    ensures { OnOk result (out.new.items ≡ out.old.items ++ spec.last_text jobs.now last) }
{
    match last {
        Some(writer) => push_writes(out, jobs, writer),
        None => Ok(()),
    }
}
