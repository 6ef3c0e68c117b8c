//! The words of `race replay`, which are those of all subcommands that read a log.
ghost use Rattle.std.specs.Prelude.{◌≡◌, IfOk, false, option_map, ℕ};
ghost use Rattle.clap.specs.Words.{app_of, found_of, rows_of, rule_of};
ghost use Rattle.clap.specs.declared.builder.command.Command.TheViews.{out-Command as fields_of};
ghost use Rattle.mk_request.specs.CommandLine as spec;

use super::job_words::with_jobs;
use super::{help, is_set, option, value_in};
use crate::requests::LogArgs;
use clap::builder::ValueParser;
use clap::{Arg, ArgAction, ArgMatches, Command};
use std::alloc::{AllocError, Global};

/// The subcommand, with its options and operands.
pub(super) fn replay_command<'a>(alloc: Global) -> Result<Command<'a>, AllocError>
    ensures app { IfOk result (λ command. app_of command ≡ spec.replay_app) }
    ensures local { IfOk result (λ command. (fields_of command).has_globals ≡ false) }
{
    let command = Command::new(alloc, "replay")
        .about(help::REPLAY_ABOUT)
        .after_help(help::REPLAY_DETAILS);
    with_log(alloc, command)
}

/// The command with the options and operands of those that read a log.
pub(super) fn with_log<'a>(alloc: Global, command: Command<'a>) -> Result<Command<'a>, AllocError>
    ensures app { IfOk result (λ new. app_of new ≡ spec.with_log (app_of command.entry)) }
    ensures local { IfOk result (λ new.
        (fields_of new).has_globals ≡ (fields_of command.entry).has_globals) }
{
    with_jobs(alloc, command, true, true)?
        .arg(option(alloc, "log", "LOG", help::LOG, true))?
        .arg(limit(alloc))?
        .arg(tie(alloc))
}

fn limit<'a>(alloc: Global) -> Arg<'a>
    ensures rule { rule_of result ≡ spec.limit }
    ensures local { result.global ≡ false }
{
    option(alloc, "limit", "N", help::LIMIT, false).value_parser(ValueParser::unsigned(1, 65_535))
}

fn tie<'a>(alloc: Global) -> Arg<'a>
    ensures rule { rule_of result ≡ spec.tie }
    ensures local { result.global ≡ false }
{
    Arg::new(alloc, "tie")
        .long("tie")
        .action(ArgAction::SetTrue)
        .help(help::TIE)
}

/// The log that these matches of a subcommand that reads one ask for.
pub(super) fn log_args<'a>(found: &ArgMatches<'a>) -> LogArgs<'a>
    ensures { spec.HasLog result (rows_of (found_of found.now)) }
{
    LogArgs {
        log: value_in(found, "log"),
        limit: limit_of(found.get_str("limit")),
        tie: is_set(found, "tie"),
    }
}

/// The number that the option's value writes, and 1 without a value.
fn limit_of(value: Option<&str>) -> u16
    ensures { (limit : ℕ) → spec.IsLimit (option_map (λ text. text.now) value.entry) limit → result ≡ limit }
{
    match value {
        Some(text) => text.parse::<u16>().unwrap_or(1),
        None => 1,
    }
}
