//! The names and labels of nodes, as lines of a report have them.
ghost use Rattle.std.specs.Prelude.{◌≡◌, ◌++◌, OnOk};
ghost use Rattle.mk_jobs.specs.Jobs as nodes;
ghost use Rattle.mk_report.specs.ReportText as spec;

use mk_jobs::jobs::Jobs;
use mk_name::report::push_shown;
use std::alloc::AllocError;

/// What stands before the label in the name of a task's own node.
const OWN_MARK: &[u8] = b"//\0";

/// How reports call a node of this name: a task by its label, any other by its name.
fn label_of(name: &[u8]) -> &[u8]
    ensures { result.now ≡ spec.label_of name.now }
{
    match name.strip_prefix(OWN_MARK) {
        Some(label) => label,
        None => name,
    }
}

/// The name of a node. What is no node has none.
pub(crate) fn name_of(jobs: &Jobs, number: u32) -> &[u8]
    ensures { result.now ≡ nodes.name_of jobs.now number }
{
    if number >= jobs.count() {
        return b"";
    }
    jobs.name(number).as_bytes()
}

/// Puts the shown label of a node at the end. What is no node has none. The only error is out of memory.
pub(crate) fn push_label(out: &mut Vec<u8>, jobs: &Jobs, number: u32) -> Result<(), AllocError>
    ensures { OnOk result (out.new.items ≡ out.old.items ++ spec.label_text jobs.now number) }
{
    push_shown(out, label_of(name_of(jobs, number)))
}

/// Puts a space and the shown label of a node at the end. The only error is out of memory.
pub(crate) fn push_name(out: &mut Vec<u8>, jobs: &Jobs, number: u32) -> Result<(), AllocError>
    ensures { OnOk result (out.new.items ≡ out.old.items ++ spec.name_text jobs.now number) }
{
    out.push(b' ')?;
    push_label(out, jobs, number)
}

/// Puts the shown labels of nodes at the end, each behind a space. The only error is out of memory.
pub(crate) fn push_names(out: &mut Vec<u8>, jobs: &Jobs, numbers: &[u32]) -> Result<(), AllocError>
    ensures { OnOk result (out.new.items ≡ out.old.items ++ spec.names_text jobs.now numbers.now) }
{
    for number in numbers {
        push_name(out, jobs, *number)?;
    }
    Ok(())
}
