//! The answers to `race fix`.
ghost use Rattle.std.specs.Prelude.{◌≢◌, IfOk, List, ℕ};
ghost use Rattle.mk_decide.specs.Decisions.{AreSafe};
ghost use Rattle.mk_name.specs.Gives.{Answers};
ghost use Rattle.mk_race.specs.Fixed.{HoldsOfFixed, HoldsOfJobs, IsFixing};
ghost use Rattle.mk_race.specs.Parts.{IsReadFrom};
ghost use Rattle.mk_race.specs.Stages.{Texts};
ghost use Rattle.mk_program.specs.Answers as spec;
ghost use Rattle.mk_program.specs.Noting.{SaysNoting};

use crate::answers::{Answer, refused};
use crate::noting::{Reply, refused_reply, with_note};
use crate::statuses::Status;
use mk_decide::decision::certify;
use mk_jobs::jobs::Jobs;
use mk_name::fault::Halt;
use mk_proof::writing::write_certificate;
use mk_race::fixing::{Fixing, copied, fix_build};
use mk_race::preparing::Prepared;
use mk_race::unused::{Noted, note_build};
use mk_read::input::Build;
use mk_report::not_fixed::not_fixed_report;
use std::alloc::{AllocError, Global};

/// The lines that fix a build that was read, or the proof of the build with them, or the edges that no lines give it; or the report of its
/// first fault; and the note. A strict build has the fault of footprints that lie unused. The only error is out of memory.
pub(crate) fn fix_reply(
    alloc: Global,
    build: Build<'_>,
    print_proof: bool,
    strict: bool,
) -> Result<Reply, AllocError>
    ensures status { IfOk result (λ reply. reply.answer.status ≢ Status.Failed) }
    ensures answer { IfOk result (λ reply. (texts : Texts) (lines : List ℕ) → IsReadFrom build.entry texts lines
        → SaysNoting strict texts lines (spec.IsFixAnswer texts lines print_proof)
        reply.answer.status reply.answer.text.items reply.note.items) }
{
    let again = copied(alloc, &build.footprints)?;
    let input = build.input;
    match note_build(alloc, build, strict) {
        Ok(noted) => {
            let Some(footprints) = again else {
                unreachable!();
            };
            let Noted { prepared, unused } = noted;
            let Prepared { listing, jobs, .. } = prepared;
            let build = Build {
                input,
                listing: Ok(listing),
                footprints: Ok(footprints),
            };
            let fixing = fix_build(alloc, build, jobs);
            let answer = fix_answer(alloc, fixing, print_proof)?;
            with_note(alloc, answer, &unused)
        }
        Err(halt) => refused_reply(alloc, halt),
    }
}

/// What comes of a build that was to be fixed, or the report of its fault. The only error is out of memory.
fn fix_answer(
    alloc: Global,
    fixing: Result<Fixing, Halt>,
    proof: bool,
) -> Result<Answer, AllocError>
    requires { IfOk fixing HoldsOfJobs }
    ensures status { IfOk result (λ answer. answer.status ≢ Status.Failed) }
    ensures answer { IfOk result (λ answer. (texts : Texts) (footprints : List ℕ)
        → Answers fixing (IsFixing texts footprints) → IfOk fixing (HoldsOfFixed texts footprints)
        → spec.IsFixAnswer texts footprints proof answer.status answer.text.items) }
{
    match fixing {
        Ok(fixing) => fixing_answer(alloc, &fixing, proof),
        Err(halt) => refused(alloc, halt),
    }
}

/// What comes of a build that was to be fixed, reported. The only error is out of memory.
fn fixing_answer(alloc: Global, fixing: &Fixing, proof: bool) -> Result<Answer, AllocError>
    requires { HoldsOfJobs fixing.now }
    ensures status { IfOk result (λ answer. answer.status ≢ Status.Failed) }
    ensures answer { IfOk result (λ answer. (texts : Texts) (footprints : List ℕ) → HoldsOfFixed texts footprints fixing.now
        → spec.IsFixReported texts footprints proof fixing.now answer.status answer.text.items) }
{
    match fixing {
        Fixing::Fixed { lines, jobs } => Ok(Answer {
            status: Status::Done,
            text: fixed_text(alloc, lines, jobs, proof)?,
            fault: None,
        }),
        Fixing::NotFixed {
            jobs,
            edges,
            refusal,
        } => Ok(Answer {
            status: Status::No,
            text: not_fixed_report(alloc, jobs, edges, refusal.as_ref())?,
            fault: None,
        }),
    }
}

/// The lines of a fix, or the certificate of the jobs with them, which are safe. The only error is out of memory.
pub(crate) fn fixed_text(
    alloc: Global,
    lines: &[u8],
    jobs: &Jobs,
    proof: bool,
) -> Result<Vec<u8>, AllocError>
    requires { AreSafe jobs.now }
    ensures { IfOk result (λ text. spec.IsFixedText jobs.now lines.now proof text.items) }
{
    if proof {
        let certificate = certify(alloc, jobs)?;
        return write_certificate(alloc, &certificate);
    }
    Ok(Vec::from_slice(alloc, lines)?)
}
