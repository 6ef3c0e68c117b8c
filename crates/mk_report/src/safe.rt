//! The report of jobs that are safe.
ghost use Rattle.std.specs.Prelude.{ℕ, ◌≡◌, ◌++◌, ◌<◌, ◌↔◌, IfSome, IsSome, List, OnOk, length};
ghost use Rattle.mk_index.specs.Uses.{IsLeastOverlap};
ghost use Rattle.mk_jobs.specs.Jobs.{Clash};
ghost use Rattle.mk_jobs.specs.Reaching.{uses_of};
ghost use Rattle.mk_report.specs.ReportText.{AreOrderLines, IsOrderText, IsSafeText, order_line, safe_head};

use crate::counts::{push_counts, push_number};
use crate::names::push_names;
use mk_jobs::jobs::Jobs;
use mk_name::report::push_shown;
use mk_path::path::Path;
use mk_path::spelling::text_of;
use mk_proof::certificate::Certificate;
use std::alloc::{AllocError, Global};

/// Puts the line of a chain at the end: a path, and the names of the chain's nodes. The only error is out of memory.
fn push_order(
    out: &mut Vec<u8>,
    alloc: Global,
    jobs: &Jobs,
    path: &Path,
    chain: &[u32],
) -> Result<(), AllocError>
    ensures { OnOk result (out.new.items ≡ out.old.items ++ order_line jobs.now path.now chain.now) }
{
    let spelled = text_of(alloc, path)?;
    out.extend_from_slice(b"order ")?;
    push_shown(out, &spelled)?;
    out.extend_from_slice(b" :")?;
    push_names(out, jobs, chain)?;
    out.push(b'\n')?;
    Ok(())
}

/// Puts the lines at the end that stand before those of the chains: the counts, and how many chains there are. The only
/// error is out of memory.
fn push_head(out: &mut Vec<u8>, jobs: &Jobs, pairs: usize) -> Result<(), AllocError>
    ensures { OnOk result (out.new.items ≡ out.old.items ++ safe_head jobs.now pairs) }
{
    out.extend_from_slice(b"safe\n")?;
    push_counts(out, jobs)?;
    push_number(out, b"pairs", pairs as u64)
}

/// The least path on which two nodes clash, if they do. What is no node clashes with none.
pub(crate) fn clash_of(jobs: &Jobs, a: u32, b: u32) -> Option<&Path>
    ensures least { IfSome result (λ path. IsLeastOverlap (uses_of jobs.now) a b path.now) }
    ensures clash { IsSome result ↔ Clash jobs.now a b }
{
    let count = jobs.count();
    if a >= count || b >= count {
        return None;
    }
    jobs.clash(a, b)
}

/// Puts the line of a chain at the end, with the least path on which its ends clash; none where they do not clash. The only
/// error is out of memory.
fn push_chain(
    out: &mut Vec<u8>,
    alloc: Global,
    jobs: &Jobs,
    chain: &[u32],
) -> Result<(), AllocError>
    requires { 0 < length chain.now }
    ensures { OnOk result ((text : List ℕ) × IsOrderText jobs.now chain.now text
        × (out.new.items ≡ out.old.items ++ text)) }
{
    match clash_of(jobs, chain[0], chain[chain.len() - 1]) {
        Some(path) => push_order(out, alloc, jobs, path, chain),
        None => Ok(()),
    }
}

/// Puts the lines of a certificate's chains at the end. The only error is out of memory.
fn push_chains(
    out: &mut Vec<u8>,
    alloc: Global,
    jobs: &Jobs,
    certificate: &Certificate,
) -> Result<(), AllocError>
    ensures { OnOk result ((lines : List ℕ) × AreOrderLines jobs.now certificate.now lines
        × (out.new.items ≡ out.old.items ++ lines)) }
{
    for number in 0..certificate.count() {
        push_chain(out, alloc, jobs, certificate.chain(number))?;
    }
    Ok(())
}

/// Puts the report of jobs with this certificate at the end (profile): the counts, how many chains there are, and for each
/// chain whose ends clash the least path on which they do and the names of its nodes. The only error is out of memory.
pub fn push_safe(
    out: &mut Vec<u8>,
    alloc: Global,
    jobs: &Jobs,
    certificate: &Certificate,
) -> Result<(), AllocError>
    ensures { OnOk result ((text : List ℕ) × IsSafeText jobs.now certificate.now text
        × (out.new.items ≡ out.old.items ++ text)) }
{
    push_head(out, jobs, certificate.count())?;
    push_chains(out, alloc, jobs, certificate)
}
