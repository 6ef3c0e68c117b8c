//! The words of the subcommands that take tasks in place of a build.
ghost use Rattle.std.specs.Prelude.{◌≡◌, ◌⊎◌, IfOk, Some, codes};
ghost use Rattle.clap.specs.Words.{app_of, first_of, found_of, rows_of};
ghost use Rattle.clap.specs.declared.builder.command.Command.TheViews.{out-Command as fields_of};
ghost use Rattle.mk_request.specs.CommandLine as spec;

use super::job_words::with_jobs;
use super::{help, is_set, option, value_in};
use crate::requests::{TaskArgs, TaskQuestion};
use clap::{ArgMatches, Command};
use std::alloc::{AllocError, Global};

/// The command with the options and operands of a build and of tasks, whose listing must be given where that is required.
pub(super) fn with_tasks<'a>(
    alloc: Global,
    command: Command<'a>,
    listing: bool,
) -> Result<Command<'a>, AllocError>
    ensures app { IfOk result (λ new. app_of new ≡ spec.with_tasks listing (app_of command.entry)) }
    ensures local { IfOk result (λ new.
        (fields_of new).has_globals ≡ (fields_of command.entry).has_globals) }
{
    with_jobs(alloc, command, false, listing)?.arg(option(
        alloc,
        "tasks",
        "TASKS",
        help::TASKS,
        false,
    ))
}

/// What these matches of the subcommand of this name ask about the tasks that they name.
pub(super) fn task_args<'a>(name: &str, found: &ArgMatches<'a>, tasks: &'a str) -> TaskArgs<'a>
    requires named { (name.now ≡ codes "check") ⊎ (name.now ≡ codes "verify") ⊎ (name.now ≡ codes "list")
        ⊎ (name.now ≡ codes "fix") ⊎ (name.now ≡ codes "missing") }
    requires tasks { Some tasks.now ≡ first_of (codes "tasks") (rows_of (found_of found.now)) }
    ensures { spec.HasTasks result name.now (rows_of (found_of found.now)) }
{
    TaskArgs {
        tasks,
        root: value_in(found, "root"),
        quiet: is_set(found, "quiet"),
        question: task_question(name, found),
    }
}

/// The question of the subcommand of this name.
fn task_question<'a>(name: &str, found: &ArgMatches<'a>) -> TaskQuestion<'a>
    requires { (name.now ≡ codes "check") ⊎ (name.now ≡ codes "verify") ⊎ (name.now ≡ codes "list")
        ⊎ (name.now ≡ codes "fix") ⊎ (name.now ≡ codes "missing") }
    ensures { spec.IsQuestion result name.now (rows_of (found_of found.now)) }
{
    if name == "check" {
        return TaskQuestion::Check {
            print_proof: is_set(found, "print-proof"),
            short: is_set(found, "short"),
        };
    }
    if name == "verify" {
        return TaskQuestion::Verify {
            proof: value_in(found, "proof"),
            short: is_set(found, "short"),
        };
    }
    if name == "list" {
        return TaskQuestion::List;
    }
    if name == "missing" {
        return TaskQuestion::Missing {
            listing: value_in(found, "listing"),
        };
    }
    TaskQuestion::Fix {
        print_proof: is_set(found, "print-proof"),
    }
}
