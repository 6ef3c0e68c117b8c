//! What reads a text of lines that comes in pieces.
ghost use Rattle.std.specs.Prelude.{◌++◌, [], IfOk, List, Result, ℕ};
ghost use Rattle.mk_name.specs.Gives.{Answers};
ghost use Rattle.mk_name.specs.Reported.{Reported};
ghost use Rattle.mk_text.specs.Lexical.{physical_lines};
ghost use Rattle.mk_text.specs.LineFeed.{HasRead};

use mk_name::fault::{Fault, Halt};
use mk_text::line_feed::LineFeed;
use mk_text::line_sink::LineSink;
use mk_text::root::Root;
use std::alloc::{AllocError, Global};

/// Reads a text of lines below a root, in pieces, whatever the cuts between them.
pub trait LineReader: Drop {
    /// What a text says.
    type Value;

    /// The reader has read this text below this root.
    ghost has_read: { Self → List ℕ → List ℕ → Type 0 };

    /// What a text says below a root, or its first fault.
    ghost says: { List ℕ → List ℕ → Result Self.Value Reported → Type 0 };

    /// A reader that has read nothing, of texts below this root.
    fn begin(alloc: Global, root: Root) -> Self
        ensures { has_read result root [] };

    /// Reads one more piece. A reader that met a fault, or is out of memory, reads on and keeps nothing more.
    fn take(&mut self, piece: &[u8])
        ensures { (root text : List ℕ) → has_read self.old root text
            → has_read self.new root (text ++ piece.now) };

    /// What all pieces say, whose last line needs no newline; or the first line's fault. The only other error is out of memory.
    fn finish(self) -> Result<Self::Value, Halt>
        ensures { (root text : List ℕ) → has_read self root text → Answers result (says root text) };
}

impl<S: LineSink> LineReader for LineFeed<S> {
    type Value = S::Value;

    ghost has_read = { λ reader root text. HasRead (S.has root) (S.says root) S.source S.KEPT text reader };

    ghost says = { λ root text. S.says root (physical_lines text) };

    fn begin(alloc: Global, root: Root) -> LineFeed<S> {
        LineFeed::new(alloc, root)
    }

    fn take(&mut self, piece: &[u8]) {
        // `finish` answers the same fault.
        let _fed = self.feed(piece);
    }

    fn finish(self) -> Result<S::Value, Halt> {
        LineFeed::finish(self)
    }
}

/// What the text that a reader has read says, or its first fault. The only error is out of memory.
pub fn finished<R: LineReader>(reader: R) -> Result<Result<R::Value, Fault>, AllocError>
    ensures { IfOk result (λ read. (root text : List ℕ) → R.has_read reader root text → R.says root text read) }
{
    match reader.finish() {
        Ok(value) => Ok(Ok(value)),
        Err(Halt::Fault(fault)) => Ok(Err(fault)),
        Err(Halt::Memory) => Err(AllocError),
    }
}
