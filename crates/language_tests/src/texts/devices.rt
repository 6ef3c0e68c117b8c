//! Readers and writers as devices.
use mk_device::device::{ReadStop, read_all, write_all};
use mk_device::feed::Feed;
use mk_device::sink::Sink;
use std::alloc::{AllocError, Global};
use std::io;
use std::io::{BufWriter, ErrorKind, Read, Write};

/// A reader that is interrupted once, gives three bytes and then fails, or, if asked to, ends.
#[derive(Drop)]
struct Moody {
    calls: u8,
    fails: bool,
}

impl Read for Moody {
    fn read(&mut self, buf: &mut [u8]) -> io::Result<usize> {
        self.calls = self.calls.saturating_add(1);
        if self.calls == 1 {
            return Err(ErrorKind::Interrupted.into());
        }
        if self.calls == 2 && buf.len() >= 3 {
            buf[..3].copy_from_slice(b"xyz");
            return Ok(3);
        }
        if self.fails {
            return Err(ErrorKind::Other.into());
        }
        Ok(0)
    }
}

/// A text that is longer than what is read at once.
static TEXT: [u8; 20_000] = [7; 20_000];

/// Whether it is fed.
fn feeds_text(alloc: Global) -> bool {
    match read_all(alloc, &mut Feed::new(TEXT.as_slice())) {
        Ok(all) => all.as_slice() == TEXT.as_slice(),
        Err(_) => false,
    }
}

/// Whether the bytes of such a reader are fed, or that it fails is reported.
fn feeds_moody(alloc: Global, fails: bool) -> bool {
    match read_all(alloc, &mut Feed::new(Moody { calls: 0, fails })) {
        Ok(all) => !fails && all.as_slice() == b"xyz".as_slice(),
        Err(stop) => fails && stop == ReadStop::Broken,
    }
}

fn all_feed(alloc: Global) -> bool {
    feeds_text(alloc) && feeds_moody(alloc, false) && feeds_moody(alloc, true)
}

#[test]
fn feeds_what_a_reader_has(rt: HostRuntime) {
    assert!(rt; all_feed(rt.alloc()));
}

/// A writer that is interrupted once, and then takes so many bytes a write.
#[derive(Drop)]
struct Narrow {
    interrupted: bool,
    width: usize,
}

impl Write for Narrow {
    fn write(&mut self, buf: &[u8]) -> io::Result<usize> {
        if !self.interrupted {
            self.interrupted = true;
            return Err(ErrorKind::Interrupted.into());
        }
        Ok(buf.len().min(self.width))
    }

    fn flush(&mut self) -> io::Result<()> {
        Ok(())
    }
}

/// Whether a writer that takes so many bytes a write gets all three.
fn takes(width: usize) -> bool {
    let mut sink = Sink::new(Narrow {
        interrupted: false,
        width,
    });
    write_all(&mut sink, b"abc").is_ok()
}

/// Whether it gets them behind a buffer.
fn takes_buffered(alloc: Global, width: usize) -> bool {
    let inner = Narrow {
        interrupted: false,
        width,
    };
    match BufWriter::new(alloc, inner) {
        Ok(buffer) => write_all(&mut Sink::new(buffer), b"abc").is_ok(),
        Err(_) => false,
    }
}

/// Whether two bytes are added to one.
fn adds(begun: Vec<u8>) -> bool {
    let mut sink = Sink::new(begun);
    let done = write_all(&mut sink, b"bc").is_ok();
    done && sink.into_inner().as_slice() == b"abc".as_slice()
}

fn adds_behind(alloc: Global) -> bool {
    match Vec::from_slice(alloc, b"a") {
        Ok(begun) => adds(begun),
        Err(AllocError) => false,
    }
}

fn all_take(alloc: Global) -> bool {
    takes(2) && !takes(0) && takes_buffered(alloc, 2) && !takes_buffered(alloc, 0)
}

#[test]
fn sinks_into_a_writer(rt: HostRuntime) {
    assert!(rt; adds_behind(rt.alloc()) && all_take(rt.alloc()));
}
