//! The report of all races.
ghost use Rattle.std.specs.Prelude.{ℕ, ◌≡◌, ◌++◌, IfOk, List, OnOk};
ghost use Rattle.mk_report.specs.RacesText.{AreRaceLines, IsRaceLine, IsRacesText, doing_text, race_line, races_head};

use crate::counts::{push_counts, push_number};
use crate::names::push_name;
use crate::safe::clash_of;
use crate::verb::verb;
use mk_jobs::jobs::Jobs;
use mk_name::report::push_shown;
use mk_path::path::Path;
use mk_path::spelling::text_of;
use std::alloc::{AllocError, Global};

/// The report of the races of jobs (profile), of which so many pairs of nodes clash: how many races there are, the counts, and
/// for each race, in the order given, the least path on which its nodes clash and what each of them does with it. Two nodes that
/// do not clash have no line. The only error is out of memory.
pub fn races_report(
    alloc: Global,
    jobs: &Jobs,
    pairs: usize,
    races: &[(u32, u32)],
) -> Result<Vec<u8>, AllocError>
    ensures { IfOk result (λ text. IsRacesText jobs.now pairs races.now text.items) }
{
    let mut out = Vec::new(alloc);
    push_head(&mut out, jobs, pairs, races.len())?;
    push_races(&mut out, alloc, jobs, races)?;
    Ok(out)
}

/// Puts the lines at the end that stand before those of races. The only error is out of memory.
fn push_head(out: &mut Vec<u8>, jobs: &Jobs, pairs: usize, races: usize) -> Result<(), AllocError>
    ensures { OnOk result (out.new.items ≡ out.old.items ++ races_head jobs.now pairs races) }
{
    push_number(out, b"races", races as u64)?;
    push_counts(out, jobs)?;
    push_number(out, b"pairs", pairs as u64)
}

/// Puts the lines of races at the end. The only error is out of memory.
fn push_races(
    out: &mut Vec<u8>,
    alloc: Global,
    jobs: &Jobs,
    races: &[(u32, u32)],
) -> Result<(), AllocError>
    ensures { OnOk result ((lines : List ℕ) × AreRaceLines jobs.now races.now lines
        × (out.new.items ≡ out.old.items ++ lines)) }
{
    for race in races {
        push_race_line(out, alloc, jobs, *race)?;
    }
    Ok(())
}

/// Puts the line of a race at the end, with the least path on which its nodes clash; none where they do not clash. The only
/// error is out of memory.
fn push_race_line(
    out: &mut Vec<u8>,
    alloc: Global,
    jobs: &Jobs,
    race: (u32, u32),
) -> Result<(), AllocError>
    ensures { OnOk result ((text : List ℕ) × IsRaceLine jobs.now race text
        × (out.new.items ≡ out.old.items ++ text)) }
{
    let (first, second) = race;
    match clash_of(jobs, first, second) {
        Some(path) => push_line(out, alloc, jobs, path, race),
        None => Ok(()),
    }
}

/// Puts the line of a race at the end, with this path. The only error is out of memory.
fn push_line(
    out: &mut Vec<u8>,
    alloc: Global,
    jobs: &Jobs,
    path: &Path,
    race: (u32, u32),
) -> Result<(), AllocError>
    ensures { OnOk result (out.new.items ≡ out.old.items ++ race_line jobs.now path.now race) }
{
    let (first, second) = race;
    let spelled = text_of(alloc, path)?;
    out.extend_from_slice(b"race ")?;
    push_shown(out, &spelled)?;
    out.extend_from_slice(b" :")?;
    push_doing(out, jobs, first, path)?;
    push_doing(out, jobs, second, path)?;
    out.push(b'\n')?;
    Ok(())
}

/// Puts a space, the name of a node and what it does with a path at the end. The only error is out of memory.
fn push_doing(out: &mut Vec<u8>, jobs: &Jobs, number: u32, path: &Path) -> Result<(), AllocError>
    ensures { OnOk result (out.new.items ≡ out.old.items ++ doing_text jobs.now number path.now) }
{
    push_name(out, jobs, number)?;
    out.push(b' ')?;
    out.extend_from_slice(verb(jobs, number, path).as_bytes())?;
    Ok(())
}
