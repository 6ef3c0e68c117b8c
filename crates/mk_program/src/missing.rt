//! The answers to `race missing`.
ghost use Rattle.std.specs.Prelude.{◌≡◌, ◌≢◌, ◌↔◌, IfOk, IsTrue, List, None, ℕ};
ghost use Rattle.mk_name.specs.Gives.{Answers};
ghost use Rattle.mk_race.specs.Missing.{BuildsAsClean, IsEmpty, IsMissingList};
ghost use Rattle.mk_race.specs.Parts.{IsReadFrom};
ghost use Rattle.mk_race.specs.Stages.{Texts};
ghost use Rattle.mk_missing.specs.Violations.{HasNone};
ghost use Rattle.mk_program.specs.Answers as spec;
ghost use Rattle.mk_program.specs.FaultText.{refusal_in};
ghost use Rattle.mk_program.specs.Noting.{SaysNoting};

use crate::answers::{Answer, refused};
use crate::change_lines::push_change;
use crate::noting::{Reply, refused_reply, with_note};
use crate::statuses::Status;
use mk_missing::violations::Violations;
use mk_name::fault::Halt;
use mk_race::again::BuildChange;
use mk_race::missing::{MissingList, list_missing};
use mk_race::unused::{Noted, note_build};
use mk_read::input::Build;
use mk_report::missing::missing_report;
use std::alloc::{AllocError, Global};

/// All races and violations of a build that was read, and the change of a second build; or the report of its first fault; and the
/// note. A strict build has the fault of footprints that lie unused. The only error is out of memory.
pub(crate) fn missing_reply(
    alloc: Global,
    build: Build<'_>,
    strict: bool,
) -> Result<Reply, AllocError>
    ensures status { IfOk result (λ reply. reply.answer.status ≢ Status.Failed) }
    ensures answer { IfOk result (λ reply. (texts : Texts) (lines : List ℕ) → IsReadFrom build.entry texts lines
        → SaysNoting strict texts lines (spec.IsMissingAnswer texts lines)
        reply.answer.status reply.answer.text.items reply.note.items) }
{
    let input = build.input;
    match note_build(alloc, build, strict) {
        Ok(noted) => {
            let Noted { prepared, unused } = noted;
            let found = list_missing(alloc, &input, prepared);
            let answer = missing_answer(alloc, found)?;
            with_note(alloc, answer, &unused)
        }
        Err(halt) => refused_reply(alloc, halt),
    }
}

/// What was listed of a build, or the report of its fault. The only error is out of memory.
fn missing_answer(alloc: Global, found: Result<MissingList, Halt>) -> Result<Answer, AllocError>
    ensures status { IfOk result (λ answer. answer.status ≢ Status.Failed) }
    ensures answer { IfOk result (λ answer. (texts : Texts) (footprints : List ℕ)
        → Answers found (IsMissingList texts footprints)
        → IfOk found (λ listed. IsEmpty listed → BuildsAsClean texts footprints)
        → spec.IsMissingAnswer texts footprints answer.status answer.text.items) }
{
    match found {
        Ok(listed) => listed_answer(alloc, &listed),
        Err(halt) => refused(alloc, halt),
    }
}

/// The races and violations that were listed, and the change of a second build, reported. The only error is out of memory.
pub(crate) fn listed_answer(alloc: Global, listed: &MissingList) -> Result<Answer, AllocError>
    ensures { IfOk result (λ answer. spec.MissingEnds listed.now answer.status
        × (answer.text.items ≡ spec.listed_text listed.now)) }
{
    let prepared = &listed.prepared;
    let races = listed.found.races.len();
    let mut text = missing_report(
        alloc,
        &prepared.jobs,
        &prepared.listing,
        races,
        &listed.violations,
    )?;
    push_change(&mut text, &prepared.jobs, listed.change)?;
    Ok(Answer {
        status: missing_status(listed),
        text,
        fault: None,
    })
}

/// How the program ends: with 0 where there is no race, no violation and no change.
fn missing_status(listed: &MissingList) -> Status
    ensures ends { spec.MissingEnds listed.now result }
    ensures no_refusal { (text : List ℕ) → refusal_in result text ≡ None }
{
    if listed.found.races.is_empty()
        && has_none(&listed.violations)
        && has_no_change(listed.change)
    {
        return Status::Done;
    }
    Status::No
}

/// Whether there is no violation.
fn has_none(found: &Violations) -> bool
    ensures { IsTrue result ↔ HasNone found.now }
{
    found.missing.is_empty()
        && found.late.is_empty()
        && found.shared.is_empty()
        && found.present.is_empty()
        && found.outputs.is_empty()
        && found.trees.is_empty()
}

/// Whether there is no change.
fn has_no_change(change: Option<BuildChange>) -> bool
    ensures { IsTrue result ↔ (change ≡ None) }
{
    match change {
        Some(_change) => false,
        None => true,
    }
}
