//! What there is of a build, in numbers.
ghost use Rattle.std.specs.Prelude.{◌≡◌, ◌≤◌, ◌++◌, ◌<◌, OnOk};
ghost use Rattle.mk_jobs.specs.Jobs.{is_idle, is_live, node_count};
ghost use Rattle.mk_report.specs.ReportText.{counts_text, how_many, number_line};

use itoa::Buffer;
use mk_jobs::jobs::Jobs;
use mk_jobs::recipe::has_recipe;
use std::alloc::AllocError;

/// Puts the line of a word and a number at the end. The only error is out of memory.
pub(crate) fn push_number(out: &mut Vec<u8>, word: &[u8], number: u64) -> Result<(), AllocError>
    ensures { OnOk result (out.new.items ≡ out.old.items ++ number_line word.now number) }
{
    let mut buffer = Buffer::new();
    out.extend_from_slice(word)?;
    out.push(b' ')?;
    out.extend_from_slice(buffer.format(number).as_bytes())?;
    out.push(b'\n')?;
    Ok(())
}

/// How many recipes are live.
fn live_count(jobs: &Jobs) -> u32
    ensures { result ≡ how_many (is_live jobs.now) (node_count jobs.now) }
{
    let mut live = 0;
    for number in 0..jobs.count() {
        if jobs.is_live(number) {
            live += 1;
        }
    }
    live
}

/// Whether a node has a recipe that can never run. Its number must be below the count of nodes.
fn is_idle(jobs: &Jobs, number: u32) -> bool
    requires { number < node_count jobs.now }
    ensures { result ≡ is_idle jobs.now number }
{
    has_recipe(jobs.maker(number)) && !jobs.is_live(number)
}

/// How many recipes are idle.
fn idle_count(jobs: &Jobs) -> u32
    ensures { result ≡ how_many (is_idle jobs.now) (node_count jobs.now) }
{
    let mut idle = 0;
    for number in 0..jobs.count() {
        if is_idle(jobs, number) {
            idle += 1;
        }
    }
    idle
}

/// Puts the lines at the end that say how many nodes, live recipes and idle recipes there are, and how often `.WAIT` is
/// used. The only error is out of memory.
pub fn push_counts(out: &mut Vec<u8>, jobs: &Jobs) -> Result<(), AllocError>
    ensures { OnOk result (out.new.items ≡ out.old.items ++ counts_text jobs.now) }
{
    push_number(out, b"nodes", u64::from(jobs.count()))?;
    push_number(out, b"recipes", u64::from(live_count(jobs)))?;
    push_number(out, b"idle", u64::from(idle_count(jobs)))?;
    push_number(out, b"waits", jobs.wait_uses())
}
