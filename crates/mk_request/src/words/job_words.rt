//! The words of the subcommands that ask about the jobs of a build.
ghost use Rattle.std.specs.Prelude.{◌≡◌, ◌⊎◌, IfOk, codes};
ghost use Rattle.clap.specs.Words.{Text, app_of, found_of, rows_of};
ghost use Rattle.clap.specs.declared.builder.command.Command.TheViews.{out-Command as fields_of};
ghost use Rattle.mk_request.specs.CommandLine as spec;

use super::{build_args, flag, help, is_set, option, value_in, with_build};
use crate::requests::{JobArgs, JobQuestion, Request};
use clap::{ArgMatches, Command};
use std::alloc::{AllocError, Global};

/// The command with the options and operands of a build and its footprints, whose files and whose listing must be given where that is
/// required.
pub(super) fn with_jobs<'a>(
    alloc: Global,
    command: Command<'a>,
    files: bool,
    listing: bool,
) -> Result<Command<'a>, AllocError>
    ensures app { IfOk result (λ new. app_of new ≡ spec.with_jobs files listing (app_of command.entry)) }
    ensures local { IfOk result (λ new.
        (fields_of new).has_globals ≡ (fields_of command.entry).has_globals) }
{
    with_build(alloc, command, files, listing)?
        .arg(option(alloc, "footprints", "FOOTPRINTS", help::FOOTPRINTS, files))?
        .arg(flag(alloc, "strict", help::STRICT))
}

/// The request that these matches of a subcommand have for this question. The only error is out of memory.
pub(super) fn job_request<'a>(
    alloc: Global,
    found: &ArgMatches<'a>,
    question: JobQuestion<'a>,
) -> Result<Request<'a>, AllocError>
    ensures { IfOk result (λ request. (name : Text)
        → spec.IsJobQuestion question.entry name (rows_of (found_of found.now))
        → spec.IsFor request name (rows_of (found_of found.now))) }
{
    Ok(Request::Jobs(JobArgs {
        build: build_args(alloc, found)?,
        footprints: value_in(found, "footprints"),
        strict: is_set(found, "strict"),
        question,
    }))
}

/// The question of the subcommand of this name, which takes tasks too, where none are named.
pub(super) fn job_question<'a>(name: &str, found: &ArgMatches<'a>) -> JobQuestion<'a>
    requires named { (name.now ≡ codes "check") ⊎ (name.now ≡ codes "verify") ⊎ (name.now ≡ codes "list")
        ⊎ (name.now ≡ codes "fix") ⊎ (name.now ≡ codes "missing") }
    requires no_tasks { spec.HasNoTasks (rows_of (found_of found.now)) }
    ensures { spec.IsJobQuestion result name.now (rows_of (found_of found.now)) }
{
    if name == "check" {
        return JobQuestion::Check {
            print_proof: is_set(found, "print-proof"),
            short: is_set(found, "short"),
        };
    }
    if name == "verify" {
        return JobQuestion::Verify {
            proof: value_in(found, "proof"),
            short: is_set(found, "short"),
        };
    }
    if name == "list" {
        return JobQuestion::List;
    }
    if name == "missing" {
        return JobQuestion::Missing;
    }
    JobQuestion::Fix {
        print_proof: is_set(found, "print-proof"),
    }
}
