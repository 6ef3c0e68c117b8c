//! Devices made of std's writers.
ghost use Rattle.std.specs.Prelude.{◌≡◌, ◌<◌, ◌≤◌, false, length, take, IfSome, IfNone};
ghost use Rattle.std.specs.Io.KnownBytes.{Appends, Keeps};

use crate::device::{Broken, Outlet};
use std::io::{ErrorKind, Write};
use std::marker::Model;

/// A writer as a device. Each write is flushed, so that a writer with a buffer fails at once where its device is full.
/// It fails where the writer's write or flush does, and where the writer takes no byte of some. A write that a signal
/// interrupts is made again.
#[derive(Drop)]
pub struct Sink<W: Write> {
    writer: W,
    failed: bool,
}

impl<W: Write> Model for Sink<W> {
    ghost use Rattle.mk_device.specs.Device.{Taking};

    ghost Value = { Taking };

    ghost view = { λ s. record { written = W.contents s.writer; failed = s.failed } };
}

impl<W: Write> Sink<W> {
    /// A device that writes behind what the writer holds.
    pub fn new(writer: W) -> Sink<W>
        ensures { result ≡ record { written = W.contents writer; failed = false } }
    {
        Sink {
            writer,
            failed: false,
        }
    }

    /// The writer, with what was written.
    pub fn into_inner(self) -> W
        ensures { W.contents result ≡ self.written }
    {
        let Sink { writer, failed: _ } = self;
        writer
    }
}

impl<W: Write> Outlet for Sink<W> {
    ghost written = { λ s. s.written };

    ghost has_failed = { λ s. s.failed };

    fn write(&mut self, bytes: &[u8]) -> Result<usize, Broken> {
        if let Some(n) = write_some(&mut self.writer, bytes) {
            if self.writer.flush().is_ok() {
                return Ok(n);
            }
        }
        self.failed = true;
        Err(Broken)
    }
}

/// How many of the bytes the writer took; `None` where it failed, or took none of some.
fn write_some<W: Write>(writer: &mut W, bytes: &[u8]) -> Option<usize>
    ensures bound { IfSome result (λ n. n ≤ length bytes.now) }
    ensures some { IfSome result (λ n. 0 < length bytes.now → 0 < n) }
    ensures grows { IfSome result
        (λ n. Appends (W.contents writer.old) (W.contents writer.new) (take n bytes.now)) }
    ensures none { IfNone result (Keeps (W.contents writer.old) (W.contents writer.new)) }
{
    'tries: for _ in 0..u64::MAX {
        match writer.write(bytes) {
            Ok(0) if !bytes.is_empty() => return None,
            Ok(n) => return Some(n),
            Err(e) if e.kind() == ErrorKind::Interrupted => {}
            Err(_) => return None,
        }
    }
    None
}
