//! What runs of the program come to.
ghost use Rattle.std.specs.Prelude.{◌≡◌, ◌≢◌, []};
ghost use Rattle.mk_request.specs.CommandLine.{wrong};
ghost use Rattle.program_tests.specs.Shelf.{HasAnswer, text_at};

use crate::shelf::Shelf;
use mk_device::sink::Sink;
use mk_program::{Status, race_words};
use std::alloc::Global;

/// A run's status, what it wrote and what it wrote on the standard error.
#[derive(Drop)]
pub struct Outcome {
    pub status: Status,
    pub out: Vec<u8>,
    pub err: Vec<u8>,
}

/// Runs the program on these words, over these files. What comes out is the answer to them, over what the files hold.
pub fn run<'a>(alloc: Global, words: &'a [&'a str], shelf: Shelf<'_>) -> Outcome
    ensures answer { wrong words.entry.now ≡ [] → result.status ≢ Status.Failed
        → HasAnswer words.entry.now (text_at shelf.entry.books.now) result.status result.out.items }
    ensures refused { result.status ≡ Status.Refused
        → HasAnswer words.entry.now (text_at shelf.entry.books.now) result.status result.out.items }
{
    let mut shelf = shelf;
    let mut out = Sink::new(Vec::new(alloc));
    let mut err = Sink::new(Vec::new(alloc));
    let status = race_words(alloc, words, &mut shelf, &mut out, &mut err);
    Outcome {
        status,
        out: out.into_inner(),
        err: err.into_inner(),
    }
}
