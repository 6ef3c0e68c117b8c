//! Texts of lines that come in pieces.
ghost use Rattle.std.specs.Prelude.{◌≡◌, ◌++◌, ◌∷◌, [], Err, IfErr, List, None, OnOk, Some, take, ℕ};
ghost use Rattle.mk_name.specs.Gives.{Answers};
ghost use Rattle.mk_text.specs.Lexical.{physical_lines};
ghost use Rattle.mk_text.specs.LineFeed as spec;
ghost use Rattle.mk_text.specs.LineFeed.{HasEndedBy, HasRead, HasStopped, IsIn, IsStoppedIn, IsUnderWay};
ghost use Rattle.mk_text.specs.declared.line_sink.Stop.{Stop};

use crate::lexical::split_line;
use crate::line_sink::{LineSink, Stop};
use crate::root::Root;
use mk_name::fault::{Fault, Halt};
use std::alloc::{AllocError, Global};
use std::marker::Model;

/// Reads a text of lines that comes in pieces, whatever the cuts between them. A line that lies whole in one piece is
/// taken in where it stands. Of a line that a cut goes through, as many first bytes are kept as decide what it says.
#[derive(Drop)]
pub struct LineFeed<S> {
    alloc: Global,
    sink: S,
    place: u64,
    open_line: Vec<u8>,
    stop: Option<Stop>,
}

impl<S> Model for LineFeed<S> {
    ghost use Rattle.mk_text.specs.LineFeed as feed;

    ghost Value = { feed.Reader S };

    ghost view = { λ a. record {
      sink = a.sink;
      place = a.place;
      open_line = a.open_line.items;
      stop = a.stop;
    } };
}

impl<S: LineSink> LineFeed<S> {
    /// A reader that has read nothing, of texts below this root.
    pub fn new(alloc: Global, root: Root) -> LineFeed<S>
        ensures { HasRead (S.has root) (S.says root) S.source S.KEPT [] result }
    {
        LineFeed {
            alloc,
            sink: S::begin(alloc, root),
            place: 1,
            open_line: Vec::new(alloc),
            stop: None,
        }
    }

    /// Reads one more piece. The first line's fault is answered, at its line from 1, without names, by the call that ends the
    /// line. The only other error is out of memory. A reader that answered a fault or out of memory answers the same ever
    /// after.
    pub fn feed(&mut self, piece: &[u8]) -> Result<(), Halt>
        ensures read { (root text : List ℕ) → HasRead (S.has root) (S.says root) S.source S.KEPT text self.old
            → HasRead (S.has root) (S.says root) S.source S.KEPT (text ++ piece.now) self.new }
        ensures answer { result ≡ spec.answer_of S.source self.new.stop }
        ensures stays { (stop : Stop) → self.old.stop ≡ Some stop → self.new.stop ≡ Some stop }
    {
        if self.stop.is_none() {
            self.stop = self.read(piece).err();
        }
        self.answer()
    }

    /// What all pieces say, whose last line needs no newline; or the first line's fault, or out of memory, as for one text.
    pub fn finish(self) -> Result<S::Value, Halt>
        ensures value { (root text : List ℕ) → HasRead (S.has root) (S.says root) S.source S.KEPT text self
            → Answers result (S.says root (physical_lines text)) }
        ensures stays { (stop : Stop) → self.stop ≡ Some stop → result ≡ Err (spec.halt_of S.source stop) }
    {
        let mut reader = self;
        reader.end();
        match reader.stop {
            None => Ok(reader.sink.finish()),
            Some(stop) => Err(halt_of::<S>(reader.alloc, stop)),
        }
    }

    /// What the reader answers to a piece.
    fn answer(&self) -> Result<(), Halt>
        ensures { result ≡ spec.answer_of S.source self.now.stop }
    {
        match self.stop {
            None => Ok(()),
            Some(stop) => Err(halt_of::<S>(self.alloc, stop)),
        }
    }

    /// Takes in the lines that end in a piece, and keeps the open one.
    fn read(&mut self, piece: &[u8]) -> Result<(), Stop>
        ensures ok { OnOk result ((root text : List ℕ) → IsIn (S.has root) S.KEPT text self.old
            → IsIn (S.has root) S.KEPT (text ++ piece.now) self.new) }
        ensures err { IfErr result (λ stop. (root text : List ℕ) → IsIn (S.has root) S.KEPT text self.old
            → IsStoppedIn S.source (S.says root) (text ++ piece.now) stop) }
    {
        let (mut line, mut rest) = split_line(piece);
        'lines: while let Some(text) = rest {
            self.end_line(line)?;
            let (next, later) = split_line(text);
            line = next;
            rest = later;
        }
        self.keep(line)?;
        Ok(())
    }

    /// Ends the text, whose last line needs no newline.
    fn end(&mut self)
        ensures lines { (root text : List ℕ) → HasRead (S.has root) (S.says root) S.source S.KEPT text self.old
            → HasEndedBy self.new.stop (S.has root) (S.says root) S.source (physical_lines text) self.new.sink }
        ensures stays { (stop : Stop) → self.old.stop ≡ Some stop → self.new.stop ≡ Some stop }
    {
        if self.stop.is_none() {
            self.stop = self.end_line(&[]).err();
        }
    }

    /// Ends the open line, whose last bytes these are. Where no other bytes of it came, it is taken in where it stands.
    fn end_line(&mut self, last: &[u8]) -> Result<(), Stop>
        ensures ok { OnOk result ((root : List ℕ) (ended : List (List ℕ)) (open_line : List ℕ)
            → IsUnderWay (S.has root) S.KEPT ended open_line self.old
            → IsUnderWay (S.has root) S.KEPT (ended ++ (open_line ++ last.now) ∷ []) [] self.new) }
        ensures err { IfErr result (λ stop. (root : List ℕ) (ended : List (List ℕ)) (open_line : List ℕ)
            → IsUnderWay (S.has root) S.KEPT ended open_line self.old
            → HasStopped S.source (S.says root) (ended ++ (open_line ++ last.now) ∷ []) stop) }
    {
        if self.open_line.is_empty() {
            self.sink.add(self.alloc, last, self.place)?;
        } else {
            self.keep(last)?;
            self.sink
                .add(self.alloc, self.open_line.as_slice(), self.place)?;
            self.open_line.clear();
        }
        self.place = self.place.saturating_add(1);
        Ok(())
    }

    /// Adds bytes to the open line, up to as many as are kept of it. The only error is out of memory.
    fn keep(&mut self, bytes: &[u8]) -> Result<(), AllocError>
        ensures { OnOk result ((root : List ℕ) (ended : List (List ℕ)) (open_line : List ℕ)
            → IsUnderWay (S.has root) S.KEPT ended open_line self.old
            → IsUnderWay (S.has root) S.KEPT ended (open_line ++ bytes.now) self.new) }
    {
        let room = S::KEPT.saturating_sub(self.open_line.len());
        self.open_line
            .extend_from_slice(&bytes[..room.min(bytes.len())])
    }
}

/// Why a reader that stopped gives nothing.
fn halt_of<S: LineSink>(alloc: Global, stop: Stop) -> Halt
    ensures { result ≡ spec.halt_of S.source stop }
{
    match stop {
        Stop::Memory => Halt::Memory,
        Stop::Fault(kind, place) => Halt::Fault(Fault::unnamed(alloc, kind, S::source(), place)),
    }
}
