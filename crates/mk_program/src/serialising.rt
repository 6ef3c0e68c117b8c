//! The answers to `race serialise`.
ghost use Rattle.std.specs.Prelude.{◌≡◌, ◌≢◌, IfErr, IfOk, List, None, Ok, ℕ};
ghost use Rattle.mk_race.specs.Stages.{AreListed, IsPrepared, Texts};
ghost use Rattle.mk_program.specs.Answers as spec;
ghost use Rattle.mk_program.specs.FaultText.{refusal_in};
ghost use Rattle.mk_program.specs.OrderText.{HasNodes, IsNoText, IsOrderedText, IsUnreported, order_status};

use crate::answers::{Answer, refused};
use crate::noting::Question;
use crate::order_lines::order_text;
use crate::statuses::Status;
use mk_files::failures::Failure;
use mk_race::preparing::Prepared;
use mk_race::serialising::{Ordered, Serialised, serialise_log};
use mk_request::requests::LogArgs;
use std::alloc::Global;

/// A log in serial order, or why it has none.
#[derive(Clone, Copy)]
pub(crate) struct SerialOrder<'a> {
    pub(crate) log: LogArgs<'a>,
}

impl Question for SerialOrder<'_> {
    ghost says = { λ asked texts footprints log. spec.IsSerialiseAnswer texts footprints log asked.log.limit asked.log.tie };

    ghost has_no_text = { λ asked texts footprints log. spec.HasNoText texts footprints log asked.log.limit asked.log.tie };

    fn answer(&self, alloc: Global, prepared: Prepared, log: &[u8]) -> Result<Answer, Failure> {
        serialised_of(alloc, prepared, log, self.log.limit, self.log.tie)
    }
}

/// What comes of a log that is to be put in serial order on a build of these jobs, or the report of its fault. The errors are
/// `Failure::NotText` and out of memory.
fn serialised_of(
    alloc: Global,
    prepared: Prepared,
    log: &[u8],
    limit: u16,
    tie: bool,
) -> Result<Answer, Failure>
    requires { AreListed prepared }
    ensures status { IfOk result (λ answer. answer.status ≢ Status.Failed) }
    ensures answer { IfOk result (λ answer. (texts : Texts) (footprints : List ℕ)
        → IsPrepared texts footprints (Ok prepared) → spec.IsSerialiseAnswer texts
        footprints log.now limit tie answer.status answer.text.items) }
    ensures failure { IfErr result (IsUnreported ((texts : Texts) (footprints : List ℕ)
        → IsPrepared texts footprints (Ok prepared) → spec.HasNoText texts footprints log.now limit tie)) }
{
    match serialise_log(alloc, prepared, log, u32::from(limit), tie) {
        Ok(given) => reported(alloc, &given),
        Err(halt) => Ok(refused(alloc, halt)?),
    }
}

/// What comes of a log, reported. The events of a log in serial order must be of nodes.
fn reported(alloc: Global, given: &Serialised) -> Result<Answer, Failure>
    requires { HasNodes given.now.jobs given.now.order }
    ensures answer { IfOk result (λ answer. (answer.status ≡ order_status given.now.order)
        × IsOrderedText given.now.jobs given.now.order answer.text.items) }
    ensures failure { IfErr result (IsUnreported (IsNoText given.now.jobs given.now.order)) }
{
    Ok(Answer {
        status: status_of(&given.order),
        text: order_text(alloc, &given.jobs, &given.order)?,
        fault: None,
    })
}

/// How the program ends.
fn status_of(order: &Ordered) -> Status
    ensures status { result ≡ order_status order.now }
    ensures no_refusal { (text : List ℕ) → refusal_in result text ≡ None }
{
    match order {
        Ordered::Serial(_) => Status::Done,
        _ => Status::No,
    }
}
