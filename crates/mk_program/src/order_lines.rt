//! What is said of a log that is to be put in serial order.
ghost use Rattle.std.specs.Prelude.{◌≡◌, IfErr, IfOk, false};
ghost use Rattle.mk_log.specs.Writing.{AreOfNodes, is_text};
ghost use Rattle.mk_program.specs.OrderText.{HasNodes, IsNoText, IsOrderedText, IsSerialText, IsUnreported};

use crate::outcome_lines::not_allowed_text;
use mk_files::failures::Failure;
use mk_jobs::jobs::Jobs;
use mk_log::log::Log;
use mk_log::writing::{LogHalt, write_log};
use mk_race::serialising::Ordered;
use mk_report::answer::race_report;
use std::alloc::Global;

/// What is said of a log (profile): its text in serial order, or why it has none, a race by its report. The events of a log
/// in serial order must be of nodes. The errors are `Failure::NotText`, where such a log has a name that is not UTF-8, and
/// out of memory.
pub fn order_text(alloc: Global, jobs: &Jobs, order: &Ordered) -> Result<Vec<u8>, Failure>
    requires { HasNodes jobs.now order.now }
    ensures text { IfOk result (λ text. IsOrderedText jobs.now order.now text.items) }
    ensures failure { IfErr result (IsUnreported (IsNoText jobs.now order.now)) }
{
    match order {
        Ordered::Serial(log) => serial_text(alloc, jobs, log),
        Ordered::NotAllowed { place, refusal } => Ok(not_allowed_text(alloc, *place, *refusal)?),
        Ordered::NotComplete => Ok(Vec::from_slice(alloc, b"not complete\n")?),
        Ordered::Race(trace) => Ok(race_report(alloc, jobs, trace, false)?),
        Ordered::NoRoom => Ok(Vec::from_slice(alloc, b"not complete: times too large\n")?),
    }
}

/// The text of a log, whose events must be of nodes.
fn serial_text(alloc: Global, jobs: &Jobs, log: &Log) -> Result<Vec<u8>, Failure>
    requires { AreOfNodes jobs.now log.now.events }
    ensures text { IfOk result (λ text. IsSerialText jobs.now log.now text.items) }
    ensures failure { IfErr result (IsUnreported (is_text jobs.now log.now ≡ false)) }
{
    match write_log(alloc, jobs, log) {
        Ok(text) => Ok(text),
        Err(LogHalt::NotText) => Err(Failure::NotText),
        Err(LogHalt::Memory) => Err(Failure::Memory),
    }
}
