//! What a task stands behind, by numbers.
ghost use Rattle.std.specs.Prelude.{◌≡◌, ◌≤◌, ◌∷◌, IfErr, IfOk, Ok, [], length};
ghost use Rattle.mk_name.specs.Gives.{Halts};
ghost use Rattle.mk_name.specs.declared.fault.Halt.TheVariants as halts;
ghost use Rattle.mk_jobs.specs.Plan.{node_limit};
ghost use Rattle.mk_task.specs.Tasks as spec;

use crate::labels::Labels;
use mk_name::fault::{Fault, Halt, Kind, Source};
use mk_name::name::Name;
use std::alloc::{AllocError, Global};
use std::collections::BTreeSet;

/// The numbers of some labels, rising, each once; or the fault of the line at a place, with the first label that is no
/// task's. The only other error is out of memory.
pub(crate) fn needs_of(
    alloc: Global,
    labels: &Labels,
    after: &[Name],
    place: u64,
) -> Result<Vec<u32>, Halt>
    requires { length labels.now ≤ node_limit }
    ensures needs { IfOk result (λ needs. spec.needs_from place labels.now [] after.now ≡ Ok needs.items) }
    ensures fault { IfErr result (λ halt. Halts halt (spec.needs_from place labels.now [] after.now)) }
{
    let mut needs = BTreeSet::new(alloc);
    for label in after {
        match labels.number(label) {
            Some(number) => needs.insert(number as u32)?,
            None => return Err(unknown(alloc, label, place)?),
        };
    }
    Ok(in_order(alloc, &needs)?)
}

/// The numbers of a set, rising. The only error is out of memory.
pub fn in_order(alloc: Global, numbers: &BTreeSet<u32>) -> Result<Vec<u32>, AllocError>
    ensures { IfOk result (λ list. list.items ≡ numbers.now.keys) }
{
    let mut list = Vec::with_capacity(alloc, numbers.len())?;
    for number in numbers {
        list.push(*number)?;
    }
    Ok(list)
}

/// The fault of the line at a place, with a label that is no task's. The only error is out of memory.
fn unknown(alloc: Global, label: &Name, place: u64) -> Result<Halt, AllocError>
    ensures { IfOk result (λ halt. halt
        ≡ halts.Fault (spec.reported Kind.UnknownTask place (label.now ∷ []))) }
{
    let name = label.copy(alloc)?;
    Ok(Halt::Fault(Fault::naming(alloc, Kind::UnknownTask, Source::Tasks, place, name)?))
}
