//! What the words of the command line ask for.
ghost use Rattle.std.specs.Prelude.{◌≡◌, ◌++◌, IfOk, OnOk, option_map};
ghost use Rattle.mk_request.specs.Requests as spec;

use crate::inputs::{InputFile, InputPath};
use std::alloc::{AllocError, Global};

/// What a build is read from: the paths of files, those of includes and of the base makefile where they are given, whether
/// the base is the one that the standard lists, the root and the operands, as they were given, and whether nothing is said beside
/// the answer.
#[derive(Drop)]
pub struct BuildArgs<'a> {
    pub includes: Option<&'a str>,
    pub base: Option<&'a str>,
    pub posix_base: bool,
    pub makefile: &'a str,
    pub listing: &'a str,
    pub root: &'a str,
    pub operands: Vec<&'a str>,
    pub quiet: bool,
}

/// What is asked about the jobs of a build: the build, the path of its footprints, whether footprints that lie unused are
/// refused, and the question.
#[derive(Drop)]
pub struct JobArgs<'a> {
    pub build: BuildArgs<'a>,
    pub footprints: &'a str,
    pub strict: bool,
    pub question: JobQuestion<'a>,
}

/// A question about jobs: that of the subcommand of this name, with the values that it has for a build.
#[derive(Clone, Copy)]
pub enum JobQuestion<'a> {
    Check { print_proof: bool, short: bool },
    Verify { proof: &'a str, short: bool },
    Replay(LogArgs<'a>),
    Serialise(LogArgs<'a>),
    List,
    Fix { print_proof: bool },
    Missing,
}

/// What a log is judged by: the path of its file, how many recipes may run at once, and whether files of equal times count
/// as newer.
#[derive(Clone, Copy)]
pub struct LogArgs<'a> {
    pub log: &'a str,
    pub limit: u16,
    pub tie: bool,
}

/// What is asked about tasks: the paths of their text and of the root, whether nothing is said beside the answer, and the question.
#[derive(Clone, Copy)]
pub struct TaskArgs<'a> {
    pub tasks: &'a str,
    pub root: &'a str,
    pub quiet: bool,
    pub question: TaskQuestion<'a>,
}

/// A question about tasks: that of the subcommand of this name, with the values that it has for tasks.
#[derive(Clone, Copy)]
pub enum TaskQuestion<'a> {
    Check { print_proof: bool, short: bool },
    Verify { proof: &'a str, short: bool },
    List,
    Fix { print_proof: bool },
    Missing { listing: &'a str },
}

/// What is asked: the serial order of a build, or something about the jobs of a build, or about tasks.
#[derive(Drop)]
pub enum Request<'a> {
    Order(BuildArgs<'a>),
    Jobs(JobArgs<'a>),
    Tasks(TaskArgs<'a>),
}

/// Whether nothing is said beside the answer.
pub fn is_quiet(request: &Request<'_>) -> bool
    ensures { result ≡ spec.is_quiet request.now }
{
    match request {
        Request::Order(build) => build.quiet,
        Request::Jobs(args) => args.build.quiet,
        Request::Tasks(args) => args.quiet,
    }
}

/// The path of the file of includes, where one is given.
pub fn includes_path<'a>(request: &Request<'a>) -> Option<&'a str>
    ensures { option_map (λ path. path.now) result ≡ spec.includes_path request.now }
{
    match request {
        Request::Order(build) => build.includes,
        Request::Jobs(args) => args.build.includes,
        Request::Tasks(_) => None,
    }
}

/// The input that a question about jobs has beside those of a build and its footprints, where it has one.
pub fn other_input<'a>(question: JobQuestion<'a>) -> Option<InputPath<'a>>
    ensures { result ≡ spec.other_input question.entry }
{
    match question {
        JobQuestion::Verify { proof, .. } => Some(InputPath {
            input: InputFile::Proof,
            path: proof,
        }),
        JobQuestion::Replay(args) | JobQuestion::Serialise(args) => Some(InputPath {
            input: InputFile::Log,
            path: args.log,
        }),
        JobQuestion::Check { .. }
        | JobQuestion::List
        | JobQuestion::Fix { .. }
        | JobQuestion::Missing => None,
    }
}

/// The inputs of a question about tasks, with the paths of their files, in the order in which they are opened and read: a listing
/// where it has one, their text, and a proof where it has one. The only error is out of memory.
pub fn task_inputs<'a>(alloc: Global, args: &TaskArgs<'a>) -> Result<Vec<InputPath<'a>>, AllocError>
    ensures { IfOk result (λ inputs. inputs.items ≡ spec.inputs_of (Request.Tasks args.now)) }
{
    let mut inputs = Vec::new(alloc);
    push_listing(&mut inputs, args.question)?;
    push_input(&mut inputs, InputFile::Tasks, args.tasks)?;
    push_proof(&mut inputs, args.question)?;
    Ok(inputs)
}

/// Puts the listing at the end that a question about tasks has, if it has one.
fn push_listing<'a>(
    inputs: &mut Vec<InputPath<'a>>,
    question: TaskQuestion<'a>,
) -> Result<(), AllocError>
    ensures { OnOk result (inputs.new.items ≡ inputs.old.items ++ spec.listing_input question.entry) }
{
    match question {
        TaskQuestion::Missing { listing } => push_input(inputs, InputFile::Listing, listing),
        TaskQuestion::Check { .. }
        | TaskQuestion::Verify { .. }
        | TaskQuestion::List
        | TaskQuestion::Fix { .. } => Ok(()),
    }
}

/// Puts the proof at the end that a question about tasks has, if it has one.
fn push_proof<'a>(
    inputs: &mut Vec<InputPath<'a>>,
    question: TaskQuestion<'a>,
) -> Result<(), AllocError>
    ensures { OnOk result (inputs.new.items ≡ inputs.old.items ++ spec.proof_input question.entry) }
{
    match question {
        TaskQuestion::Verify { proof, .. } => push_input(inputs, InputFile::Proof, proof),
        TaskQuestion::Check { .. }
        | TaskQuestion::List
        | TaskQuestion::Fix { .. }
        | TaskQuestion::Missing { .. } => Ok(()),
    }
}

/// Puts an input at the end.
fn push_input<'a>(
    inputs: &mut Vec<InputPath<'a>>,
    input: InputFile,
    path: &'a str,
) -> Result<(), AllocError>
    ensures { OnOk result (inputs.new.items ≡ inputs.old.items ++ spec.input_at input path.entry) }
{
    inputs.push(InputPath { input, path })?;
    Ok(())
}
