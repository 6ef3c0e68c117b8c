//! The words of `race serialise`.
ghost use Rattle.std.specs.Prelude.{◌≡◌, IfOk, false};
ghost use Rattle.clap.specs.Words.{app_of};
ghost use Rattle.clap.specs.declared.builder.command.Command.TheViews.{out-Command as fields_of};
ghost use Rattle.mk_request.specs.CommandLine as spec;

use super::help;
use super::replay_words::with_log;
use clap::Command;
use std::alloc::{AllocError, Global};

/// The subcommand, with its options and operands.
pub(super) fn serialise_command<'a>(alloc: Global) -> Result<Command<'a>, AllocError>
    ensures app { IfOk result (λ command. app_of command ≡ spec.serialise_app) }
    ensures local { IfOk result (λ command. (fields_of command).has_globals ≡ false) }
{
    let command = Command::new(alloc, "serialise")
        .about(help::SERIALISE_ABOUT)
        .after_help(help::SERIALISE_DETAILS);
    with_log(alloc, command)
}
