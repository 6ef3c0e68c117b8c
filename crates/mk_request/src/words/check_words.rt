//! The words of `race check`.
ghost use Rattle.std.specs.Prelude.{◌≡◌, IfOk, false};
ghost use Rattle.clap.specs.Words.{app_of};
ghost use Rattle.clap.specs.declared.builder.command.Command.TheViews.{out-Command as fields_of};
ghost use Rattle.mk_request.specs.CommandLine as spec;

use super::task_words::with_tasks;
use super::{flag, help};
use clap::Command;
use std::alloc::{AllocError, Global};

/// The subcommand, with its options and operands.
pub(super) fn check_command<'a>(alloc: Global) -> Result<Command<'a>, AllocError>
    ensures app { IfOk result (λ command. app_of command ≡ spec.check_app) }
    ensures local { IfOk result (λ command. (fields_of command).has_globals ≡ false) }
{
    let command = Command::new(alloc, "check")
        .about(help::CHECK_ABOUT)
        .after_help(help::CHECK_DETAILS);
    with_tasks(alloc, command, false)?
        .arg(flag(alloc, "print-proof", help::PRINT_PROOF))?
        .arg(flag(alloc, "short", help::SHORT))
}
