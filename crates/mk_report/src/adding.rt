//! The lines that declare what was found.
ghost use Rattle.std.specs.Prelude.{◌≡◌, ◌++◌, IfOk, OnOk};
ghost use Rattle.mk_missing.specs.Watching as watching;
ghost use Rattle.mk_report.specs.MissingText as spec;

use crate::fixes::{has_word, is_makefile_word};
use crate::names::name_of;
use mk_jobs::jobs::Jobs;
use mk_path::path::Path;
use mk_text::listing::Listing;
use std::alloc::{AllocError, Global};

/// Puts the line at the end that declares a missing input, if there is one: the last writer becomes a prerequisite, or, without
/// one, the file itself. The only error is out of memory.
pub(crate) fn push_missing_add(
    out: &mut Vec<u8>,
    alloc: Global,
    jobs: &Jobs,
    listing: &Listing,
    path: &Path,
    n: u32,
    last: Option<u32>,
) -> Result<(), AllocError>
    ensures { OnOk result (out.new.items ≡ out.old.items ++ spec.missing_add jobs.now listing.now path.now n last) }
{
    match last {
        Some(writer) => {
            let wanted = is_made_for(jobs, writer, n);
            push_add(out, alloc, jobs, wanted, n, name_of(jobs, writer))
        }
        None => {
            let wanted = is_there_for(jobs, listing, path, n);
            push_add(out, alloc, jobs, wanted, n, path.name.as_bytes())
        }
    }
}

/// Puts the line at the end that makes a last writer run with a node, if there is one. The only error is out of memory.
pub(crate) fn push_shared_add(
    out: &mut Vec<u8>,
    alloc: Global,
    jobs: &Jobs,
    n: u32,
    last: Option<u32>,
) -> Result<(), AllocError>
    ensures { OnOk result (out.new.items ≡ out.old.items ++ spec.shared_add jobs.now n last) }
{
    match last {
        Some(writer) => {
            let wanted = makes_own(jobs, n);
            push_add(out, alloc, jobs, wanted, writer, name_of(jobs, n))
        }
        None => Ok(()),
    }
}

/// Puts the line at the end that gives a node a prerequisite, if it is wanted and both names are words of a makefile. The only
/// error is out of memory.
fn push_add(
    out: &mut Vec<u8>,
    alloc: Global,
    jobs: &Jobs,
    wanted: bool,
    n: u32,
    name: &[u8],
) -> Result<(), AllocError>
    ensures { OnOk result (out.new.items ≡ out.old.items ++ spec.add_line wanted jobs.now n name.now) }
{
    if !wanted {
        return Ok(());
    }
    if !are_words(alloc, jobs, n, name)? {
        return Ok(());
    }
    out.extend_from_slice(b"add ")?;
    out.extend_from_slice(name_of(jobs, n))?;
    out.extend_from_slice(b": ")?;
    out.extend_from_slice(name)?;
    out.push(b'\n')?;
    Ok(())
}

/// Whether the name of a node and another are words of a makefile. The only error is out of memory.
fn are_words(alloc: Global, jobs: &Jobs, n: u32, name: &[u8]) -> Result<bool, AllocError>
    ensures { IfOk result (λ both. both ≡ spec.are_words jobs.now n name.now) }
{
    if !has_word(alloc, jobs, n)? {
        return Ok(false);
    }
    is_makefile_word(alloc, jobs, name)
}

/// Whether a path is a file that is listed, and whose node, if it has one, comes before this one.
fn is_there_for(jobs: &Jobs, listing: &Listing, path: &Path, n: u32) -> bool
    ensures { result ≡ spec.is_there_for jobs.now listing.now path.now n }
{
    !path.tree && listing.contains(&path.name) && is_below(jobs.number(&path.name), n)
}

/// Whether a number, if there is one, is below another.
fn is_below(number: Option<u32>, n: u32) -> bool
    ensures { result ≡ spec.is_below number n }
{
    match number {
        Some(k) => k < n,
        None => true,
    }
}

/// Whether a node makes its own file, and comes before another.
fn is_made_for(jobs: &Jobs, writer: u32, n: u32) -> bool
    ensures { result ≡ spec.is_made_for jobs.now writer n }
{
    writer < n && makes_own(jobs, writer)
}

/// Whether a node makes its own file. What is no node does not.
fn makes_own(jobs: &Jobs, n: u32) -> bool
    ensures { result ≡ watching.makes_own jobs.now n }
{
    n < jobs.count() && jobs.may_write(n, jobs.name(n))
}
