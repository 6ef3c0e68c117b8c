//! Devices made of std's readers.
ghost use Rattle.std.specs.Prelude.{◌≡◌, ◌-◌, ◌^◌, false};

use crate::device::{Broken, Intake};
use std::io::{ErrorKind, Read};
use std::marker::Model;

/// A reader as a device. It fails where the reader does, and at its 2^64th read. A read that a signal interrupts is
/// made again, and counts as another. Nothing is stated of whether it can be read to its end.
#[derive(Drop)]
pub struct Feed<R: Read> {
    reader: R,
    failed: bool,
    reads: u64,
}

impl<R: Read> Model for Feed<R> {
    ghost use Rattle.mk_device.specs.Device.{Giving};

    ghost Value = { Giving };

    ghost view = { λ f. record { left = R.remaining f.reader; failed = f.failed; reads = f.reads } };
}

impl<R: Read> Feed<R> {
    /// A device that gives what the reader has left.
    pub fn new(reader: R) -> Feed<R>
        ensures { result ≡ record { left = R.remaining reader; failed = false; reads = 2 ^ 64 - 1 } }
    {
        Feed {
            reader,
            failed: false,
            reads: u64::MAX,
        }
    }
}

impl<R: Read> Intake for Feed<R> {
    ghost use Rattle.mk_device.specs.Device.{not_stated};

    ghost left = { λ f. f.left };

    ghost has_failed = { λ f. f.failed };

    ghost readable = { not_stated };

    ghost reads_left = { λ f. f.reads };

    fn read(&mut self, buffer: &mut [u8]) -> Result<usize, Broken> {
        'tries: while self.reads > 0 {
            self.reads -= 1;
            match self.reader.read(buffer) {
                Ok(n) => return Ok(n),
                Err(e) if e.kind() == ErrorKind::Interrupted => {}
                Err(_) => break,
            }
        }
        self.failed = true;
        Err(Broken)
    }
}
