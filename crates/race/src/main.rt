//! A checker for makefiles that are built with `make -j`: the words of the process and its streams, given to
//! [`mk_program::race_words`].
#![tactic(auto)]

mod arguments;
mod disk;

use arguments::{arguments, texts};
use disk::Disk;
use mk_device::sink::Sink;
use mk_files::failures::Failure;
use mk_program::{Status, fail, race_words};
use std::process::ExitCode;

fn main(rt: HostRuntime) -> ExitCode {
    ExitCode::from(run(&rt))
}

/// Runs the program on the words of the process.
fn run(rt: &HostRuntime) -> Status {
    match answered(rt) {
        Ok(status) => status,
        Err(failure) => fail(&failure, &mut Sink::new(rt.stderr())),
    }
}

/// Runs the program where the words of the process are texts.
fn answered(rt: &HostRuntime) -> Result<Status, Failure> {
    let arguments = arguments(rt)?;
    let words = texts(rt.alloc(), arguments.as_slice())?;
    let mut out = Sink::new(rt.stdout());
    let mut err = Sink::new(rt.stderr());
    let words = words.as_slice();
    Ok(race_words(rt.alloc(), words, &mut Disk(rt), &mut out, &mut err))
}
