//! Questions about the jobs of a build: what they ask of is read once, by one function, and then each is answered of that.
ghost use Rattle.std.specs.Prelude.{◌≡◌, ◌≢◌, IfErr, IfOk, List, OnOk, map, ℕ};
ghost use Rattle.mk_race.specs.Parts.{IsReadFrom};
ghost use Rattle.mk_race.specs.Stages.{Texts};
ghost use Rattle.mk_request.specs.Requests.{inputs_of, other_input as other_of};
ghost use Rattle.mk_files.specs.Builds.{IsJobReadAs, other_text};
ghost use Rattle.mk_files.specs.Inputs.{Hold, InputsMayBeRead};
ghost use Rattle.mk_program.specs.Answers as spec;
ghost use Rattle.mk_program.specs.OrderText.{IsUnreported};

use crate::answers::{base_of, bytes_of};
use crate::checking::Checking;
use crate::fixing::fix_reply;
use crate::listing::AllRaces;
use crate::missing::missing_reply;
use crate::noting::{Reply, noted_reply};
use crate::replaying::Replaying;
use crate::serialising::SerialOrder;
use crate::statuses::Status;
use crate::verifying::Verifying;
use mk_files::builds::{ReadJob, read_build};
use mk_files::failures::Failure;
use mk_files::openers::Opener;
use mk_read::builds::{ReadBuild, ReadPlan};
use mk_read::input::{Build, Input};
use mk_request::inputs::InputFile;
use mk_request::requests::{JobArgs, JobQuestion, Request, other_input};
use std::alloc::Global;

/// Reads a build and the further input of what is asked about its jobs, and gives the answer and its note. `Failure::Read` names the
/// first input whose file cannot be opened, or cannot be read; the other failures are `Failure::NotText` and out of memory.
pub(crate) fn job_reply<P: Opener>(
    alloc: Global,
    opener: &mut P,
    args: &JobArgs<'_>,
    includes: &[(&[u8], &[u8])],
) -> Result<Reply, Failure>
    ensures status { IfOk result (λ reply. reply.answer.status ≢ Status.Failed) }
    ensures read { OnOk result (InputsMayBeRead (P.files opener.old) (inputs_of (Request.Jobs args.now))) }
    ensures failure { IfErr result (spec.IsInputFailure (P.files opener.old) (inputs_of (Request.Jobs args.now))
        (spec.IsNoTextOver (Request.Jobs args.now) (map (λ pair. (pair.0.now, pair.1.now)) includes.now))) }
    ensures answer { IfOk result (λ reply. (text : InputFile → List ℕ)
        → Hold (P.files opener.old).text (inputs_of (Request.Jobs args.now)) text
        → spec.IsAnswerOver (Request.Jobs args.now) (map (λ pair. (pair.0.now, pair.1.now)) includes.now) text
        reply.answer.status reply.answer.text.items reply.note.items) }
{
    let other = other_input(args.question);
    let read = read_build(alloc, opener, &args.build, args.footprints, other)?;
    reply_over(alloc, args, includes, read)
}

/// The answer about the jobs of the build that was read, and its note. The errors are `Failure::NotText` and out of memory.
fn reply_over<'a>(
    alloc: Global,
    args: &JobArgs<'a>,
    includes: &'a [(&'a [u8], &'a [u8])],
    read: ReadJob,
) -> Result<Reply, Failure>
    ensures status { IfOk result (λ reply. reply.answer.status ≢ Status.Failed) }
    ensures answer { IfOk result (λ reply. (text : InputFile → List ℕ)
        → IsJobReadAs args.now.build.root.now (other_of args.now.question) text read
        → spec.IsAnswerOver (Request.Jobs args.now) (map (λ pair. (pair.0.now, pair.1.now)) includes.now) text
        reply.answer.status reply.answer.text.items reply.note.items) }
    ensures failure { IfErr result (IsUnreported ((text : InputFile → List ℕ)
        → IsJobReadAs args.now.build.root.now (other_of args.now.question) text read
        → spec.IsNoTextOver (Request.Jobs args.now) (map (λ pair. (pair.0.now, pair.1.now)) includes.now) text)) }
{
    let build = &args.build;
    let operands = bytes_of(alloc, build.operands.as_slice())?;
    let ReadJob {
        build: found,
        other,
    } = read;
    let ReadBuild { plan, footprints } = found;
    let ReadPlan {
        base,
        makefile,
        listing,
    } = plan;
    let input = Input {
        base: base_of(build, base.as_slice()),
        makefile: makefile.as_slice(),
        root: build.root.as_bytes(),
        includes,
        operands: operands.as_slice(),
    };
    let asked = Build {
        input,
        listing,
        footprints,
    };
    reply_to(alloc, args, asked, other.as_slice())
}

/// The answer to what is asked about the jobs of a build, and its note, where the further input of the question has this text. The
/// errors are `Failure::NotText` and out of memory.
fn reply_to(
    alloc: Global,
    args: &JobArgs<'_>,
    build: Build<'_>,
    other: &[u8],
) -> Result<Reply, Failure>
    ensures status { IfOk result (λ reply. reply.answer.status ≢ Status.Failed) }
    ensures answer { IfOk result (λ reply. (texts : Texts) (text : InputFile → List ℕ)
        → IsReadFrom build.entry texts (text InputFile.Footprints) → other.now ≡ other_text (other_of args.now.question) text
        → spec.IsJobAnswer args.now.question args.now.strict texts text
        reply.answer.status reply.answer.text.items reply.note.items) }
    ensures failure { IfErr result (IsUnreported ((texts : Texts) (text : InputFile → List ℕ)
        → IsReadFrom build.entry texts (text InputFile.Footprints) → other.now ≡ other_text (other_of args.now.question) text
        → spec.IsNoTextOf args.now.question texts text)) }
{
    let strict = args.strict;
    match args.question {
        JobQuestion::Check { print_proof, short } => {
            let checking = Checking { print_proof, short };
            noted_reply(alloc, build, other, &checking, strict)
        }
        JobQuestion::Verify { short, .. } => {
            noted_reply(alloc, build, other, &Verifying { short }, strict)
        }
        JobQuestion::Replay(log) => noted_reply(alloc, build, other, &Replaying { log }, strict),
        JobQuestion::Serialise(log) => {
            noted_reply(alloc, build, other, &SerialOrder { log }, strict)
        }
        JobQuestion::List => noted_reply(alloc, build, other, &AllRaces, strict),
        JobQuestion::Fix { print_proof } => Ok(fix_reply(alloc, build, print_proof, strict)?),
        JobQuestion::Missing => Ok(missing_reply(alloc, build, strict)?),
    }
}
