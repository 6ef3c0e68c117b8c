//! The words of `race verify`.
ghost use Rattle.std.specs.Prelude.{◌≡◌, IfOk, false};
ghost use Rattle.clap.specs.Words.{app_of};
ghost use Rattle.clap.specs.declared.builder.command.Command.TheViews.{out-Command as fields_of};
ghost use Rattle.mk_request.specs.CommandLine as spec;

use super::task_words::with_tasks;
use super::{flag, help, option};
use clap::Command;
use std::alloc::{AllocError, Global};

/// The subcommand, with its options and operands.
pub(super) fn verify_command<'a>(alloc: Global) -> Result<Command<'a>, AllocError>
    ensures app { IfOk result (λ command. app_of command ≡ spec.verify_app) }
    ensures local { IfOk result (λ command. (fields_of command).has_globals ≡ false) }
{
    let command = Command::new(alloc, "verify")
        .about(help::VERIFY_ABOUT)
        .after_help(help::VERIFY_DETAILS);
    with_tasks(alloc, command, false)?
        .arg(option(alloc, "proof", "PROOF", help::PROOF, true))?
        .arg(flag(alloc, "short", help::SHORT_PROOF))
}
