//! The line of a change that a second build makes in its plan.
ghost use Rattle.std.specs.Prelude.{◌≡◌, ◌++◌, OnOk};
ghost use Rattle.mk_jobs.specs.Jobs as nodes;
ghost use Rattle.mk_program.specs.ChangeText as spec;

use mk_jobs::jobs::Jobs;
use mk_name::report::push_shown;
use mk_race::again::BuildChange;
use std::alloc::AllocError;

/// Puts the line of a change at the end, if there is one. The only error is out of memory.
pub(crate) fn push_change(
    out: &mut Vec<u8>,
    jobs: &Jobs,
    change: Option<BuildChange>,
) -> Result<(), AllocError>
    ensures { OnOk result (out.new.items ≡ out.old.items ++ spec.change_text jobs.now change) }
{
    match change {
        None => Ok(()),
        Some(BuildChange::Node(n)) => push_node(out, jobs, n),
        Some(BuildChange::Refused) => out.extend_from_slice(b"plan : refused\n"),
    }
}

/// Puts the line of a node that a second build lacks or makes in another way at the end. What is no node has no name. The only
/// error is out of memory.
fn push_node(out: &mut Vec<u8>, jobs: &Jobs, n: u32) -> Result<(), AllocError>
    ensures { OnOk result (out.new.items ≡ out.old.items ++ spec.node_text jobs.now n) }
{
    out.extend_from_slice(b"plan ")?;
    push_shown(out, name_of(jobs, n))?;
    out.push(b'\n')?;
    Ok(())
}

/// The name of a node. What is no node has none.
fn name_of(jobs: &Jobs, n: u32) -> &[u8]
    ensures { result.now ≡ nodes.name_of jobs.now n }
{
    if n >= jobs.count() {
        return b"";
    }
    jobs.name(n).as_bytes()
}
