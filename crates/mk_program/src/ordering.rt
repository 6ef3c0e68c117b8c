//! The answers to `race order`.
ghost use Rattle.std.specs.Prelude.{◌≡◌, ◌≢◌, [], IfErr, IfOk, List, OnOk, map, ℕ};
ghost use Rattle.mk_request.specs.Requests.{build_inputs};
ghost use Rattle.mk_files.specs.Builds.{IsPlanReadAs};
ghost use Rattle.mk_files.specs.Inputs.{Hold, InputsMayBeRead, IsShortOr, IsUnread};
ghost use Rattle.mk_program.specs.Answers as spec;
ghost use Rattle.mk_program.specs.Answers.{texts_for};
ghost use Rattle.mk_program.specs.PlanText.{plan_text as text_of_plan};

use crate::answers::{Answer, base_of, bytes_of, refused};
use crate::noting::{Reply, without_note};
use crate::plan_lines::plan_text;
use crate::statuses::Status;
use mk_files::builds::read_plan;
use mk_files::failures::Failure;
use mk_files::openers::Opener;
use mk_race::planning::{Planned, plan_of};
use mk_read::builds::ReadPlan;
use mk_read::input::Input;
use mk_request::inputs::InputFile;
use mk_request::requests::BuildArgs;
use std::alloc::{AllocError, Global};
use std::mem::forget;

/// Reads a build whose listing comes in pieces, and gives its serial order, or the report of its first fault, without a note.
/// `Failure::Read` names the first input whose file cannot be opened, or cannot be read; the only other failure is out of memory.
pub(crate) fn order_reply<P: Opener>(
    alloc: Global,
    opener: &mut P,
    build: &BuildArgs<'_>,
    includes: &[(&[u8], &[u8])],
) -> Result<Reply, Failure>
    ensures status { IfOk result (λ reply. reply.answer.status ≢ Status.Failed) }
    ensures read { OnOk result (InputsMayBeRead (P.files opener.old) (build_inputs build.now)) }
    ensures failure { IfErr result (IsShortOr (IsUnread (P.files opener.old) (build_inputs build.now))) }
    ensures answer { IfOk result (λ reply. (text : InputFile → List ℕ)
        → Hold (P.files opener.old).text (build_inputs build.now) text
        → spec.IsOrderAnswer (texts_for build.now (map (λ pair. (pair.0.now, pair.1.now)) includes.now) text)
        reply.answer.status reply.answer.text.items × (reply.note.items ≡ [])) }
{
    let read = read_plan(alloc, opener, build)?;
    let answer = order_over(alloc, build, includes, read)?;
    Ok(without_note(alloc, answer))
}

/// The serial order of the build that was read, or the report of its first fault. The only error is out of memory.
fn order_over<'a>(
    alloc: Global,
    build: &BuildArgs<'a>,
    includes: &'a [(&'a [u8], &'a [u8])],
    read: ReadPlan,
) -> Result<Answer, AllocError>
    ensures status { IfOk result (λ answer. answer.status ≢ Status.Failed) }
    ensures answer { IfOk result (λ answer. (text : InputFile → List ℕ)
        → IsPlanReadAs build.now.root.now text read
        → spec.IsOrderAnswer (texts_for build.now (map (λ pair. (pair.0.now, pair.1.now)) includes.now) text)
        answer.status answer.text.items) }
{
    let operands = bytes_of(alloc, build.operands.as_slice())?;
    let ReadPlan {
        base,
        makefile,
        listing,
    } = read;
    let input = Input {
        root: build.root.as_bytes(),
        operands: operands.as_slice(),
        base: base_of(build, base.as_slice()),
        makefile: makefile.as_slice(),
        includes,
    };
    match plan_of(alloc, &input, listing) {
        Ok(planned) => plan_answer(alloc, planned),
        Err(halt) => refused(alloc, halt),
    }
}

/// A plan, reported. What it was made from is not freed piece by piece: the program ends with its answer, and its memory with it.
fn plan_answer(alloc: Global, planned: Planned) -> Result<Answer, AllocError>
    ensures { IfOk result (λ answer. (answer.status ≡ Status.Done)
        × (answer.text.items ≡ text_of_plan planned.plan)) }
{
    let text = plan_text(alloc, &planned.plan);
    forget(planned);
    Ok(Answer {
        status: Status::Done,
        text: text?,
        fault: None,
    })
}
