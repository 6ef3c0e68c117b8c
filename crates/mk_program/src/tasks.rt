//! The answers about tasks.
ghost use Rattle.std.specs.Prelude.{◌≡◌, ◌≢◌, [], IfErr, IfOk, List, Ok, OnOk, ℕ};
ghost use Rattle.mk_race.specs.Tasked.{tasked};
ghost use Rattle.mk_race.specs.TasksFixed.{AreSafeIfFixed, HoldsOfFixedTasks};
ghost use Rattle.mk_request.specs.Requests.{inputs_of};
ghost use Rattle.mk_program.specs.Answers as spec;
ghost use Rattle.mk_files.specs.Inputs.{AreTexts, Hold, InputsMayBeRead, IsShortOr, IsUnread};

use crate::answers::{Answer, refused};
use crate::checking::judged_of;
use crate::fixing::fixed_text;
use crate::listing::list_over;
use crate::missing::listed_answer;
use crate::noting::{Reply, without_note};
use crate::statuses::Status;
use crate::verifying::verdict_of;
use mk_files::failures::Failure;
use mk_files::inputs::{InputText, read_inputs, text_of};
use mk_files::openers::Opener;
use mk_jobs::jobs::Jobs;
use mk_race::tasked::prepare_tasks;
use mk_race::tasks_fixing::{TaskFixing, fix_tasks};
use mk_race::tasks_missing::list_missing_tasks;
use mk_request::inputs::InputFile;
use mk_request::requests::{Request, TaskArgs, TaskQuestion, task_inputs};
use std::alloc::{AllocError, Global};

/// Reads the inputs of a question about tasks, and gives the answer, or the report of their first fault, without a note.
/// `Failure::Read` names the first input whose file cannot be opened, or cannot be read; the only other failure is out of memory.
pub(crate) fn tasks_reply<P: Opener>(
    alloc: Global,
    opener: &mut P,
    args: &TaskArgs<'_>,
) -> Result<Reply, Failure>
    ensures status { IfOk result (λ reply. reply.answer.status ≢ Status.Failed) }
    ensures read { OnOk result (InputsMayBeRead (P.files opener.old) (inputs_of (Request.Tasks args.now))) }
    ensures failure { IfErr result (IsShortOr (IsUnread (P.files opener.old) (inputs_of (Request.Tasks args.now)))) }
    ensures answer { IfOk result (λ reply. (text : InputFile → List ℕ)
        → Hold (P.files opener.old).text (inputs_of (Request.Tasks args.now)) text
        → spec.IsTasksAnswer args.now.question args.now.root.now text reply.answer.status reply.answer.text.items
        × (reply.note.items ≡ [])) }
{
    let inputs = task_inputs(alloc, args)?;
    let texts = read_inputs(alloc, opener, inputs.as_slice())?;
    let answer = tasks_answer(alloc, args, texts.as_slice())?;
    Ok(without_note(alloc, answer))
}

/// The answer to a question about tasks, or why their text is refused. The only error is out of memory.
fn tasks_answer(
    alloc: Global,
    args: &TaskArgs<'_>,
    texts: &[InputText],
) -> Result<Answer, AllocError>
    ensures status { IfOk result (λ answer. answer.status ≢ Status.Failed) }
    ensures answer { IfOk result (λ answer. (text : InputFile → List ℕ) → AreTexts texts.now text
        → spec.IsTasksAnswer args.now.question args.now.root.now text answer.status answer.text.items) }
{
    let root = args.root.as_bytes();
    let tasks = text_of(texts, InputFile::Tasks);
    match args.question {
        TaskQuestion::Fix { print_proof } => fix_answer(alloc, root, tasks, print_proof),
        TaskQuestion::Missing { .. } => {
            let listing = text_of(texts, InputFile::Listing);
            missing_answer(alloc, root, listing, tasks)
        }
        TaskQuestion::Check { .. } | TaskQuestion::Verify { .. } | TaskQuestion::List => {
            jobs_answer(alloc, args, texts)
        }
    }
}

/// The answer to a question about the jobs of tasks, or the report of their first fault. The only error is out of memory.
fn jobs_answer(
    alloc: Global,
    args: &TaskArgs<'_>,
    texts: &[InputText],
) -> Result<Answer, AllocError>
    requires { spec.IsOfJobs args.now.question }
    ensures status { IfOk result (λ answer. answer.status ≢ Status.Failed) }
    ensures answer { IfOk result (λ answer. (text : InputFile → List ℕ) → AreTexts texts.now text
        → spec.IsTasksAnswer args.now.question args.now.root.now text answer.status answer.text.items) }
{
    let root = args.root.as_bytes();
    match prepare_tasks(alloc, root, text_of(texts, InputFile::Tasks)) {
        Ok(jobs) => answer_on(alloc, jobs, args, texts),
        Err(halt) => refused(alloc, halt),
    }
}

/// The answer to a question about tasks that mean these jobs. The only error is out of memory.
fn answer_on(
    alloc: Global,
    jobs: Jobs,
    args: &TaskArgs<'_>,
    texts: &[InputText],
) -> Result<Answer, AllocError>
    requires { spec.IsOfJobs args.now.question }
    ensures status { IfOk result (λ answer. answer.status ≢ Status.Failed) }
    ensures answer { IfOk result (λ answer. (text : InputFile → List ℕ) → AreTexts texts.now text
        → tasked args.now.root.now (text InputFile.Tasks) ≡ Ok jobs
        → spec.IsTasksAnswer args.now.question args.now.root.now text answer.status answer.text.items) }
{
    match args.question {
        TaskQuestion::Check { print_proof, short } => judged_of(alloc, jobs, print_proof, short),
        TaskQuestion::Verify { short, .. } => {
            verdict_of(alloc, &jobs, text_of(texts, InputFile::Proof), short)
        }
        TaskQuestion::List => list_over(alloc, jobs),
        TaskQuestion::Fix { .. } | TaskQuestion::Missing { .. } => unreachable!(),
    }
}

/// The report of all races and violations of tasks with a listing, or of the first fault of both texts. The only error is out of
/// memory.
fn missing_answer(
    alloc: Global,
    root: &[u8],
    listing: &[u8],
    tasks: &[u8],
) -> Result<Answer, AllocError>
    ensures status { IfOk result (λ answer. answer.status ≢ Status.Failed) }
    ensures answer { IfOk result (λ answer.
        spec.IsTaskMissingAnswer root.now listing.now tasks.now answer.status answer.text.items) }
{
    match list_missing_tasks(alloc, root, listing, tasks) {
        Ok(listed) => listed_answer(alloc, &listed),
        Err(halt) => refused(alloc, halt),
    }
}

/// The lines that fix tasks or the proof with them, or the edges that they need, or the report of their first fault. The only error is
/// out of memory.
fn fix_answer(alloc: Global, root: &[u8], tasks: &[u8], proof: bool) -> Result<Answer, AllocError>
    ensures status { IfOk result (λ answer. answer.status ≢ Status.Failed) }
    ensures answer { IfOk result (λ answer.
        spec.IsTaskFixAnswer root.now tasks.now proof answer.status answer.text.items) }
{
    match fix_tasks(alloc, root, tasks) {
        Ok(fixing) => fixing_answer(alloc, &fixing, proof),
        Err(halt) => refused(alloc, halt),
    }
}

/// What comes of tasks that were to be fixed, reported. The only error is out of memory.
fn fixing_answer(alloc: Global, fixing: &TaskFixing, proof: bool) -> Result<Answer, AllocError>
    requires { AreSafeIfFixed fixing.now }
    ensures { IfOk result (λ answer. (root tasks : List ℕ) → HoldsOfFixedTasks root tasks fixing.now
        → spec.SaysTasksFixed root tasks proof fixing.now answer.status answer.text.items) }
{
    match fixing {
        TaskFixing::Fixed { lines, jobs } => Ok(Answer {
            status: Status::Done,
            text: fixed_text(alloc, lines, jobs, proof)?,
            fault: None,
        }),
        TaskFixing::NotFixed { text } => Ok(Answer {
            status: Status::No,
            text: Vec::from_slice(alloc, text)?,
            fault: None,
        }),
    }
}
