//! The words of the command line.
ghost use Rattle.std.specs.Prelude.{◌≡◌, ◌⊎◌, IfOk, Ok, codes, false, option_map};
ghost use Rattle.clap.specs.Words.{FailsBy, app_of, first_of, found_of, kind_of, rows_of, rule_of, with_subcommand};
ghost use Rattle.clap.specs.declared.builder.command.Command.TheViews.{out-Command as fields_of};
ghost use Rattle.mk_request.specs.CommandLine as spec;

mod check_words;
mod fix_words;
mod help;
mod job_words;
mod list_words;
mod missing_words;
mod mistakes;
mod replay_words;
mod serialise_words;
mod task_words;
mod verify_words;

use crate::requests::{BuildArgs, JobQuestion, Request};
use check_words::check_command;
use clap::{Arg, ArgAction, ArgMatches, Command, Error};
use fix_words::fix_command;
use job_words::{job_question, job_request};
use list_words::list_command;
use missing_words::missing_command;
use mistakes::{Mistake, mistake_in};
use replay_words::{log_args, replay_command};
use serialise_words::serialise_command;
use std::alloc::{AllocError, Global};
use task_words::task_args;
use verify_words::verify_command;

/// Reads the words of the command line, of which the first is the program's name. A fault of the words and a call for
/// help or the version are errors, which have their text.
pub fn read_words<'a>(alloc: Global, words: &'a [&'a str]) -> Result<Request<'a>, Error>
    ensures values { IfOk result (λ request. spec.Asks request (spec.asked words.entry.now)) }
    ensures kinds { FailsBy (spec.wrong words.entry.now) result }
{
    let matches = race_command(alloc)?.try_get_matches_from(words)?;
    match matches.subcommand() {
        Some((name, found)) => {
            if let Some(mistake) = mistake_in(name, found) {
                return Err(error_of(alloc, &mistake)?);
            }
            Ok(request_of(alloc, name, found)?)
        }
        None => unreachable!(),
    }
}

/// The error of a mistake. The only error of its own is out of memory.
fn error_of(alloc: Global, mistake: &Mistake) -> Result<Error, AllocError>
    ensures { IfOk result (λ error. kind_of error ≡ mistake.now.kind) }
{
    race_command(alloc)?.error(mistake.kind, mistake.message)
}

/// What the matches of the subcommand with this name ask for. The only error is out of memory.
fn request_of<'a>(
    alloc: Global,
    name: &str,
    found: &ArgMatches<'a>,
) -> Result<Request<'a>, AllocError>
    requires { (name.now ≡ codes "order") ⊎ (name.now ≡ codes "check") ⊎ (name.now ≡ codes "verify")
        ⊎ (name.now ≡ codes "replay") ⊎ (name.now ≡ codes "serialise") ⊎ (name.now ≡ codes "list")
        ⊎ (name.now ≡ codes "fix") ⊎ (name.now ≡ codes "missing") }
    ensures { IfOk result (λ request.
        spec.IsFor request name.now (rows_of (found_of found.now))) }
{
    if name == "order" {
        return Ok(Request::Order(build_args(alloc, found)?));
    }
    if name == "replay" {
        return job_request(alloc, found, JobQuestion::Replay(log_args(found)));
    }
    if name == "serialise" {
        return job_request(alloc, found, JobQuestion::Serialise(log_args(found)));
    }
    match found.get_str("tasks") {
        Some(tasks) => Ok(Request::Tasks(task_args(name, found, tasks))),
        None => job_request(alloc, found, job_question(name, found)),
    }
}

/// The program, with its subcommands.
fn race_command<'a>(alloc: Global) -> Result<Command<'a>, AllocError>
    ensures app { IfOk result (λ command. app_of command ≡ spec.race_app) }
    ensures local { IfOk result (λ command. (fields_of command).has_globals ≡ false) }
{
    let command = with_made(top_command(alloc), order_command(alloc))?;
    let command = with_made(command, check_command(alloc))?;
    let command = with_made(command, verify_command(alloc))?;
    let command = with_made(command, replay_command(alloc))?;
    let command = with_made(command, serialise_command(alloc))?;
    let command = with_made(command, list_command(alloc))?;
    let command = with_made(command, fix_command(alloc))?;
    with_made(command, missing_command(alloc))
}

/// The command with one subcommand more, where that could be made.
fn with_made<'a>(
    command: Command<'a>,
    made: Result<Command<'a>, AllocError>,
) -> Result<Command<'a>, AllocError>
    requires { IfOk made (λ sub. (fields_of sub).has_globals ≡ false) }
    ensures app { IfOk result (λ new. (sub : Command) × (made.entry ≡ Ok sub)
        × (app_of new ≡ with_subcommand (app_of command.entry) (app_of sub).top)) }
    ensures local { IfOk result (λ new.
        (fields_of new).has_globals ≡ (fields_of command.entry).has_globals) }
{
    match made {
        Ok(sub) => command.subcommand(sub),
        Err(error) => Err(error),
    }
}

/// The program without its subcommands.
fn top_command<'a>(alloc: Global) -> Command<'a>
    ensures app { app_of result ≡ spec.top_app }
    ensures local { (fields_of result).has_globals ≡ false }
{
    Command::new(alloc, "race")
        .about(help::ABOUT)
        .after_help(help::DETAILS)
        .version(help::VERSION)
        .disable_help_subcommand(true)
        .subcommand_required(true)
}

fn order_command<'a>(alloc: Global) -> Result<Command<'a>, AllocError>
    ensures app { IfOk result (λ command. app_of command ≡ spec.order_app) }
    ensures local { IfOk result (λ command. (fields_of command).has_globals ≡ false) }
{
    let command = Command::new(alloc, "order")
        .about(help::ORDER_ABOUT)
        .after_help(help::ORDER_DETAILS);
    with_build(alloc, command, true, true)
}

/// The command with the options and operands of a build, whose makefile and whose listing must be given where that is required.
fn with_build<'a>(
    alloc: Global,
    command: Command<'a>,
    makefile: bool,
    listing: bool,
) -> Result<Command<'a>, AllocError>
    ensures app { IfOk result (λ new.
        app_of new ≡ spec.with_build makefile listing (app_of command.entry)) }
    ensures local { IfOk result (λ new.
        (fields_of new).has_globals ≡ (fields_of command.entry).has_globals) }
{
    command
        .arg(option(alloc, "makefile", "MAKEFILE", help::MAKEFILE, makefile))?
        .arg(option(alloc, "listing", "LISTING", help::LISTING, listing))?
        .arg(option(alloc, "root", "DIR", help::ROOT, true))?
        .arg(option(alloc, "base", "BASE", help::BASE, false))?
        .arg(flag(alloc, "posix-base", help::POSIX_BASE))?
        .arg(option(alloc, "includes", "FILE", help::INCLUDES, false))?
        .arg(flag(alloc, "quiet", help::QUIET))?
        .arg(operands(alloc))
}

fn operands<'a>(alloc: Global) -> Arg<'a>
    ensures rule { rule_of result ≡ spec.operands }
    ensures local { result.global ≡ false }
{
    Arg::new(alloc, "operands")
        .action(ArgAction::Append)
        .value_name("OPERAND")
        .help(help::OPERANDS)
}

/// An option with one value, which must be given where that is required.
fn option<'a>(
    alloc: Global,
    name: &'a str,
    value: &'a str,
    about: &'a str,
    required: bool,
) -> Arg<'a>
    ensures rule { rule_of result ≡ spec.option required name.entry.now }
    ensures local { result.global ≡ false }
{
    Arg::new(alloc, name)
        .long(name)
        .action(ArgAction::Set)
        .value_name(value)
        .required(required)
        .help(about)
}

/// A flag.
fn flag<'a>(alloc: Global, name: &'a str, about: &'a str) -> Arg<'a>
    ensures rule { rule_of result ≡ spec.flag name.entry.now }
    ensures local { result.global ≡ false }
{
    Arg::new(alloc, name)
        .long(name)
        .action(ArgAction::SetTrue)
        .help(about)
}

/// The build that these matches of a subcommand ask for. The only error is out of memory.
fn build_args<'a>(alloc: Global, found: &ArgMatches<'a>) -> Result<BuildArgs<'a>, AllocError>
    ensures { IfOk result (λ build. spec.HasValues build (rows_of (found_of found.now))) }
{
    Ok(BuildArgs {
        includes: found.get_str("includes"),
        base: found.get_str("base"),
        posix_base: is_true(found.get_str("posix-base")),
        makefile: found.get_str("makefile").unwrap_or(""),
        listing: found.get_str("listing").unwrap_or(""),
        root: found.get_str("root").unwrap_or(""),
        operands: Vec::from_slice(alloc, found.get_strs("operands").unwrap_or(&[]))?,
        quiet: is_set(found, "quiet"),
    })
}

/// Whether the flag of this name is set in these matches.
fn is_set<'a>(found: &ArgMatches<'a>, name: &str) -> bool
    ensures { result ≡ spec.is_true (first_of name.now (rows_of (found_of found.now))) }
{
    is_true(found.get_str(name))
}

/// The value of the option of this name in these matches, which is empty where there is none.
fn value_in<'a>(found: &ArgMatches<'a>, name: &str) -> &'a str
    ensures { result.now ≡ spec.value_of name.now (rows_of (found_of found.now)) }
{
    found.get_str(name).unwrap_or("")
}

/// Whether a flag's value says that it is set.
fn is_true(value: Option<&str>) -> bool
    ensures { result ≡ spec.is_true (option_map (λ text. text.now) value.entry) }
{
    match value {
        Some(text) => text == "true",
        None => false,
    }
}
