//! Questions about the jobs of a build whose footprints may lie unused, and the note of that.
ghost use Rattle.std.specs.Prelude.{◌≡◌, ◌≢◌, ◌++◌, [], IfErr, IfOk, List, Ok, OnOk, ℕ};
ghost use Rattle.mk_name.specs.Shown.{refused_text};
ghost use Rattle.mk_name.specs.Reported.{Reported};
ghost use Rattle.mk_name.specs.declared.fault.Halt.TheVariants as halts;
ghost use Rattle.mk_race.specs.Parts.{IsReadFrom};
ghost use Rattle.mk_race.specs.Stages.{AreListed, IsPrepared, Texts};
ghost use Rattle.mk_program.specs.Noting as spec;
ghost use Rattle.mk_program.specs.OrderText.{IsUnreported};
ghost use Rattle.mk_program.specs.declared.statuses.Status.{Status as Ending};

use crate::answers::{Answer, refused};
use crate::statuses::Status;
use mk_files::failures::Failure;
use mk_name::fault::Halt;
use mk_name::report::push_shown;
use mk_race::preparing::Prepared;
use mk_race::unused::{Noted, Unused, note_build};
use mk_read::input::Build;
use std::alloc::{AllocError, Global};

/// What the program says: an answer, and the note that is written on the standard error then, or nothing.
#[derive(Drop)]
pub struct Reply {
    pub answer: Answer,
    pub note: Vec<u8>,
}

/// A question about the jobs of a build, which are answered for by a further input where there is one, such as a proof.
pub(crate) trait Question {
    /// What is said of a build with these texts and footprints where that input has this text, and how the program ends then.
    ghost says: { Self → Texts → List ℕ → List ℕ → Ending → List ℕ → Type 0 };

    /// What would be said has a name that is no text.
    ghost has_no_text: { Self → Texts → List ℕ → List ℕ → Type 0 };

    /// The answer about these jobs, where that input has this text. The errors are `Failure::NotText` and out of memory.
    fn answer(&self, alloc: Global, prepared: Prepared, other: &[u8]) -> Result<Answer, Failure>
        requires { AreListed prepared }
        ensures status { IfOk result (λ answer. answer.status ≢ Status.Failed) }
        ensures answer { IfOk result (λ answer. (texts : Texts) (footprints : List ℕ)
            → IsPrepared texts footprints (Ok prepared)
            → says self.now texts footprints other.now answer.status answer.text.items) }
        ensures failure { IfErr result (IsUnreported ((texts : Texts) (footprints : List ℕ)
            → IsPrepared texts footprints (Ok prepared) → has_no_text self.now texts footprints other.now)) };
}

/// The answer to a question about the jobs of a build that was read, where the question's further input has this text, or the report of
/// the build's first fault; and the note. A strict build has the fault of footprints that lie unused. The errors are
/// `Failure::NotText` and out of memory.
pub(crate) fn noted_reply<Q: Question>(
    alloc: Global,
    build: Build<'_>,
    other: &[u8],
    question: &Q,
    strict: bool,
) -> Result<Reply, Failure>
    ensures status { IfOk result (λ reply. reply.answer.status ≢ Status.Failed) }
    ensures answer { IfOk result (λ reply. (texts : Texts) (lines : List ℕ) → IsReadFrom build.entry texts lines
        → spec.SaysNoting strict texts lines (Q.says question.now texts lines other.now)
        reply.answer.status reply.answer.text.items reply.note.items) }
    ensures failure { IfErr result (IsUnreported ((texts : Texts) (lines : List ℕ) → IsReadFrom build.entry texts lines
        → Q.has_no_text question.now texts lines other.now)) }
{
    match note_build(alloc, build, strict) {
        Ok(noted) => reply_on(alloc, noted, other, question),
        Err(halt) => Ok(refused_reply(alloc, halt)?),
    }
}

/// The answer to a question about a build of these jobs, and the note of the build. The errors are `Failure::NotText` and out of
/// memory.
fn reply_on<Q: Question>(
    alloc: Global,
    noted: Noted,
    other: &[u8],
    question: &Q,
) -> Result<Reply, Failure>
    requires { AreListed noted.prepared }
    ensures status { IfOk result (λ reply. reply.answer.status ≢ Status.Failed) }
    ensures answer { IfOk result (λ reply. (texts : Texts) (footprints : List ℕ)
        → IsPrepared texts footprints (Ok noted.prepared)
        → Q.says question.now texts footprints other.now reply.answer.status reply.answer.text.items) }
    ensures note { IfOk result (λ reply. reply.note.items ≡ spec.note_of noted.unused) }
    ensures failure { IfErr result (IsUnreported ((texts : Texts) (footprints : List ℕ)
        → IsPrepared texts footprints (Ok noted.prepared) → Q.has_no_text question.now texts footprints other.now)) }
{
    let Noted { prepared, unused } = noted;
    let answer = question.answer(alloc, prepared, other)?;
    Ok(with_note(alloc, answer, &unused)?)
}

/// An answer, and no note.
pub(crate) fn without_note(alloc: Global, answer: Answer) -> Reply
    ensures answer { result.answer ≡ answer }
    ensures note { result.note.items ≡ [] }
{
    Reply {
        answer,
        note: Vec::new(alloc),
    }
}

/// An answer, and the note of footprints that lie unused, where there are any. The only error is out of memory.
pub(crate) fn with_note(
    alloc: Global,
    answer: Answer,
    unused: &Option<Unused>,
) -> Result<Reply, AllocError>
    ensures answer { IfOk result (λ reply. reply.answer ≡ answer) }
    ensures note { IfOk result (λ reply. reply.note.items ≡ spec.note_of unused.now) }
{
    match unused {
        Some(unused) => Ok(Reply {
            answer,
            note: note_line(alloc, unused)?,
        }),
        None => Ok(without_note(alloc, answer)),
    }
}

/// The report of a fault, and no note; out of memory is no answer.
pub(crate) fn refused_reply(alloc: Global, halt: Halt) -> Result<Reply, AllocError>
    ensures { IfOk result (λ reply. (reported : Reported) × (halt ≡ halts.Fault reported)
        × (reply.answer.status ≡ Status.Refused) × (reply.answer.text.items ≡ refused_text reported)
        × (reply.note.items ≡ [])) }
{
    let answer = refused(alloc, halt)?;
    Ok(without_note(alloc, answer))
}

/// The line of the note. The only error is out of memory.
fn note_line(alloc: Global, unused: &Unused) -> Result<Vec<u8>, AllocError>
    ensures { IfOk result (λ line. line.items ≡ spec.note_line unused.now) }
{
    let mut out = Vec::from_slice(alloc, b"race: note: nothing makes ")?;
    push_shown(&mut out, unused.name.as_bytes())?;
    out.extend_from_slice(b" here, though its footprint says what its recipe does ")?;
    push_count(&mut out, alloc, unused.count)?;
    out.extend_from_slice(b"; see --base\n")?;
    Ok(out)
}

/// Puts at the end how many targets there are.
fn push_count(out: &mut Vec<u8>, alloc: Global, count: usize) -> Result<(), AllocError>
    ensures { OnOk result (out.new.items ≡ out.old.items ++ spec.count_text count) }
{
    let word = if count == 1 {
        " such target"
    } else {
        " such targets"
    };
    let text = format!(in alloc; "({count}{word})")?;
    out.extend_from_slice(text.as_bytes())
}
