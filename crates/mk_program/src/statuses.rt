//! How the program ends.
ghost use Rattle.std.specs.Prelude.{◌≡◌};

use std::process::ExitCode;

/// How the program ends.
#[derive(Clone, Copy, Debug, PartialEq, Eq)]
pub enum Status {
    /// The plan is printed, the proof is accepted, the log is a run, or is put in serial order, no race is listed, or nothing is
    /// missing, or the help or the version is printed.
    Done,
    /// The answer is no: the proof is not accepted, or the log is no run, or is not put in serial order, races are listed, or
    /// something is missing.
    No,
    /// The inputs are refused, and the report says why.
    Refused,
    /// A device failed, memory is short, or the command line is invalid.
    Failed,
}

impl From<Status> for ExitCode {
    ghost use Rattle.std.specs.Process.{exit_status};
    ghost use Rattle.mk_program.specs.Statuses.{number_of};

    ghost from_gives = { λ status code. exit_status code ≡ number_of status };

    fn from(status: Status) -> ExitCode {
        match status {
            Status::Done => ExitCode::from(0),
            Status::No => ExitCode::from(1),
            Status::Refused => ExitCode::from(2),
            Status::Failed => ExitCode::from(3),
        }
    }
}
