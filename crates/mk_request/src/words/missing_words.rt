//! The words of `race missing`.
ghost use Rattle.std.specs.Prelude.{◌≡◌, IfOk, false};
ghost use Rattle.clap.specs.Words.{app_of};
ghost use Rattle.clap.specs.declared.builder.command.Command.TheViews.{out-Command as fields_of};
ghost use Rattle.mk_request.specs.CommandLine as spec;

use super::help;
use super::task_words::with_tasks;
use clap::Command;
use std::alloc::{AllocError, Global};

/// The subcommand, with its options and operands. Its listing must be given, for tasks too.
pub(super) fn missing_command<'a>(alloc: Global) -> Result<Command<'a>, AllocError>
    ensures app { IfOk result (λ command. app_of command ≡ spec.missing_app) }
    ensures local { IfOk result (λ command. (fields_of command).has_globals ≡ false) }
{
    let command = Command::new(alloc, "missing")
        .about(help::MISSING_ABOUT)
        .after_help(help::MISSING_DETAILS);
    with_tasks(alloc, command, true)
}
