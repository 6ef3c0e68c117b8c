//! The answers to requests.
ghost use Rattle.std.specs.Prelude.{◌≡◌, ◌≢◌, IfErr, IfOk, List, OnOk, map, option_map, ℕ};
ghost use Rattle.mk_name.specs.Shown.{refused_text};
ghost use Rattle.mk_name.specs.Reported.{Reported};
ghost use Rattle.mk_name.specs.declared.fault.Halt.TheVariants as halts;
ghost use Rattle.mk_request.specs.Requests.{inputs_of};
ghost use Rattle.mk_program.specs.Answers as spec;
ghost use Rattle.mk_program.specs.FaultText.{IsSaidBeside, refusal_in};
ghost use Rattle.mk_files.specs.Inputs.{Hold, InputsMayBeRead};

use crate::fault_line::said_beside;
use crate::jobs::job_reply;
use crate::noting::Reply;
use crate::ordering::order_reply;
use crate::posix_base::posix_base;
use crate::statuses::Status;
use crate::tasks::tasks_reply;
use mk_files::failures::Failure;
use mk_files::includes::{pairs_of, read_includes};
use mk_files::openers::Opener;
use mk_name::fault::{Fault, Halt};
use mk_name::report::refused_report;
use mk_request::inputs::InputFile;
use mk_request::requests::{BuildArgs, Request, includes_path};
use std::alloc::{AllocError, Global};

/// What the program says, how it ends where that is written, and the fault, where that is what it reports.
#[derive(Drop)]
pub struct Answer {
    pub status: Status,
    pub text: Vec<u8>,
    pub fault: Option<Fault>,
    ghost alike: { refusal_in status text.items ≡ option_map refused_text fault },
}

/// The answer to a request, and what is said beside it: the line of the fault that refuses the input, and the note. The includes are
/// read first; then all other files are opened before any of them is read, and read before anything is said.
pub fn answer_of<P: Opener>(
    alloc: Global,
    request: &Request<'_>,
    opener: &mut P,
) -> Result<Reply, Failure>
    ensures status { IfOk result (λ reply. reply.answer.status ≢ Status.Failed) }
    ensures read { OnOk result (spec.MayAllBeRead (P.files opener.old) request.now) }
    ensures failure { IfErr result (spec.IsRequestFailure (P.files opener.old) request.now) }
    ensures answer { IfOk result (λ reply. spec.IsRequestAnswer request.now (P.files opener.old).text
        reply.answer.status reply.answer.text.items reply.note.items) }
{
    let reply = noted_answer(alloc, request, opener)?;
    Ok(with_fault(alloc, request, reply)?)
}

/// An answer with its note, where the line of its fault comes before the note, if it has one; or without a word, where the request
/// is quiet. The only error is out of memory.
fn with_fault(alloc: Global, request: &Request<'_>, reply: Reply) -> Result<Reply, AllocError>
    ensures answer { IfOk result (λ said. said.answer ≡ reply.answer) }
    ensures said { IfOk result (λ said. IsSaidBeside request.now reply.answer.status reply.answer.text.items
        reply.note.items said.note.items) }
{
    let Reply { answer, note } = reply;
    let note = said_beside(alloc, request, &answer.fault, note)?;
    Ok(Reply { answer, note })
}

/// The answer to a request, and its note.
fn noted_answer<P: Opener>(
    alloc: Global,
    request: &Request<'_>,
    opener: &mut P,
) -> Result<Reply, Failure>
    ensures status { IfOk result (λ reply. reply.answer.status ≢ Status.Failed) }
    ensures read { OnOk result (spec.MayAllBeRead (P.files opener.old) request.now) }
    ensures failure { IfErr result (spec.IsRequestFailure (P.files opener.old) request.now) }
    ensures answer { IfOk result (λ reply. spec.IsNotedAnswer request.now (P.files opener.old).text
        reply.answer.status reply.answer.text.items reply.note.items) }
{
    let included = read_includes(alloc, opener, includes_path(request))?;
    let pairs = pairs_of(alloc, included.as_slice())?;
    answer_with(alloc, request, opener, pairs.as_slice())
}

/// The answer to a request over the pairs of its includes, and its note.
fn answer_with<P: Opener>(
    alloc: Global,
    request: &Request<'_>,
    opener: &mut P,
    includes: &[(&[u8], &[u8])],
) -> Result<Reply, Failure>
    ensures status { IfOk result (λ reply. reply.answer.status ≢ Status.Failed) }
    ensures read { OnOk result (InputsMayBeRead (P.files opener.old) (inputs_of request.now)) }
    ensures failure { IfErr result (spec.IsInputFailure (P.files opener.old) (inputs_of request.now)
        (spec.IsNoTextOver request.now (map (λ pair. (pair.0.now, pair.1.now)) includes.now))) }
    ensures answer { IfOk result (λ reply. (text : InputFile → List ℕ)
        → Hold (P.files opener.old).text (inputs_of request.now) text
        → spec.IsAnswerOver request.now (map (λ pair. (pair.0.now, pair.1.now)) includes.now) text
        reply.answer.status reply.answer.text.items reply.note.items) }
{
    match request {
        Request::Order(build) => order_reply(alloc, opener, build, includes),
        Request::Jobs(args) => job_reply(alloc, opener, args, includes),
        Request::Tasks(args) => tasks_reply(alloc, opener, args),
    }
}

/// The base makefile of a build, where this text was read for one.
pub(crate) fn base_of<'a>(build: &BuildArgs<'_>, read: &'a [u8]) -> &'a [u8]
    ensures { result.now ≡ spec.base_of build.now read.entry.now }
{
    if build.posix_base {
        return posix_base();
    }
    read
}

/// The report of a fault; out of memory is no answer.
pub(crate) fn refused(alloc: Global, halt: Halt) -> Result<Answer, AllocError>
    ensures { IfOk result (λ answer. (reported : Reported) × (halt ≡ halts.Fault reported)
        × (answer.status ≡ Status.Refused) × (answer.text.items ≡ refused_text reported)) }
{
    match halt {
        Halt::Fault(fault) => fault_answer(alloc, fault),
        Halt::Memory => Err(AllocError),
    }
}

/// A fault, reported.
pub(crate) fn fault_answer(alloc: Global, fault: Fault) -> Result<Answer, AllocError>
    ensures { IfOk result (λ answer. (answer.status ≡ Status.Refused)
        × (answer.text.items ≡ refused_text fault)) }
{
    Ok(Answer {
        status: Status::Refused,
        text: refused_report(alloc, &fault)?,
        fault: Some(fault),
    })
}

/// The bytes of some texts. The only error is out of memory.
pub(crate) fn bytes_of<'a>(alloc: Global, texts: &[&'a str]) -> Result<Vec<&'a [u8]>, AllocError>
    ensures { IfOk result (λ list. map (λ bytes. bytes.now) list.items
        ≡ map (λ text. text.now) texts.now) }
{
    let mut list = Vec::new(alloc);
    for text in texts {
        list.push(text.as_bytes())?;
    }
    Ok(list)
}
