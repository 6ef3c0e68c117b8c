//! Failures: why the program gives no answer.
ghost use Rattle.std.specs.Prelude.{◌≡◌, Some};
ghost use Rattle.mk_files.specs.Failures as spec;
ghost use Rattle.mk_files.specs.Failures.{failure_text, unread_text};

use mk_read::builds::{BuildStop, BuildText};
use mk_request::inputs::InputFile;
use std::alloc::{AllocError, AllocFailed};
use std::fmt;
use thiserror::Error;

/// Why the program ends with the status of a device, of memory or of usage. Its text is what stands on the standard
/// error, without the newline.
#[derive(Debug, Drop, Error)]
pub enum Failure {
    /// The input cannot be opened, or cannot be read to its end.
    Read(InputFile),
    /// The standard output takes no more.
    Write,
    /// Memory ran out.
    Memory,
    /// A name in a log that is to be written is no text.
    NotText,
    /// An invalid command line; the text says how.
    Usage(String),
}

impl Failure {
    /// What stands on the standard error, without the newline.
    pub fn text(&self) -> &str
        ensures { result.now ≡ failure_text self.now }
    {
        match self {
            Failure::Read(input) => unread_text(*input),
            Failure::Write => "race: write failed",
            Failure::Memory => "race: out of memory",
            Failure::NotText => "race: not text",
            Failure::Usage(text) => text.as_str(),
        }
    }
}

impl fmt::Display for Failure {
    ghost output = { λ failure. Some (failure_text failure) };

    fn fmt<W: fmt::Write>(&self, f: &mut fmt::Formatter<W>) -> fmt::Result {
        f.write_str(self.text())
    }
}

/// That an input cannot be opened, or cannot be read.
fn unread_text(input: InputFile) -> &'static str
    ensures { result.now ≡ unread_text input }
{
    match input {
        InputFile::Include => "race: read failed: include",
        InputFile::Base => "race: read failed: base",
        InputFile::Makefile => "race: read failed: makefile",
        InputFile::Listing => "race: read failed: listing",
        InputFile::Footprints => "race: read failed: footprints",
        InputFile::Proof => "race: read failed: proof",
        InputFile::Log => "race: read failed: log",
        InputFile::Tasks => "race: read failed: tasks",
    }
}

impl From<BuildStop> for Failure {
    ghost use Rattle.mk_files.specs.Failures.{unread};

    ghost from_gives = { λ stop failure. failure ≡ unread stop };

    fn from(stop: BuildStop) -> Failure {
        match stop {
            BuildStop::Broken(text) => Failure::Read(input_of(text)),
            BuildStop::Memory => Failure::Memory,
        }
    }
}

/// The input that is a text of a build.
fn input_of(text: BuildText) -> InputFile
    ensures { result ≡ spec.input_of text }
{
    match text {
        BuildText::Base => InputFile::Base,
        BuildText::Makefile => InputFile::Makefile,
        BuildText::Listing => InputFile::Listing,
        BuildText::Footprints => InputFile::Footprints,
    }
}

impl From<AllocError> for Failure {
    ghost use Rattle.mk_files.specs.declared.failures.Failure.TheVariants as failures;

    ghost from_gives = { λ _ failure. failure ≡ failures.Memory };

    fn from(_error: AllocError) -> Failure {
        Failure::Memory
    }
}

impl<T: Drop> From<AllocFailed<T>> for Failure {
    ghost use Rattle.mk_files.specs.declared.failures.Failure.TheVariants as failures;

    ghost from_gives = { λ _ failure. failure ≡ failures.Memory };

    fn from(_error: AllocFailed<T>) -> Failure {
        Failure::Memory
    }
}
