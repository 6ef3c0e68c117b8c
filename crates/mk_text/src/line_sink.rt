//! What takes in the lines of a text, one by one.
ghost use Rattle.std.specs.Prelude.{◌≡◌, ◌++◌, ◌∷◌, [], IfErr, List, Ok, OnOk, Result, ℕ};
ghost use Rattle.mk_name.specs.Reported.{Reported};
ghost use Rattle.mk_name.specs.declared.fault.Kind.{Kind};
ghost use Rattle.mk_name.specs.declared.fault.Source.{Source};
ghost use Rattle.mk_text.specs.LineFeed.{ComesBehind, HasStopped};
ghost use Rattle.mk_text.specs.declared.line_sink.Stop.TheVariants as stops;

use crate::root::Root;
use mk_name::fault::{Kind, Source};
use std::alloc::{AllocError, Global};

/// Why no further line is taken in.
#[derive(Clone, Copy, Debug)]
pub enum Stop {
    /// Memory ran out.
    Memory,
    /// The line at this place is at fault.
    Fault(Kind, u64),
}

impl From<AllocError> for Stop {
    ghost from_gives = { λ _ stop. stop ≡ stops.Memory };

    fn from(_error: AllocError) -> Stop {
        Stop::Memory
    }
}

/// Takes in the lines of a text below a root, one by one.
pub trait LineSink: Drop {
    /// What the lines of a text say.
    type Value;

    /// So many of a line's first bytes decide what it says.
    const KEPT: usize;

    ghost KEPT: { ℕ };

    /// The text that a fault is in.
    ghost source: { Source };

    /// What lines say below a root, or their first fault.
    ghost says: { List ℕ → List (List ℕ) → Result Self.Value Reported → Type 0 };

    /// These are the lines below a root that were taken in, and none of them is at fault.
    ghost has: { List ℕ → Self → List (List ℕ) → Type 0 };

    /// No line is taken in yet, of texts below this root.
    fn begin(alloc: Global, root: Root) -> Self
        ensures { has root result [] };

    /// The text that a fault is in.
    fn source() -> Source
        ensures { result ≡ source };

    /// Takes in the line at a place from 1, or as many of its first bytes as decide. Where it is at fault, its fault is the
    /// first, whatever lines come behind it. The only other error is out of memory.
    fn add(&mut self, alloc: Global, line: &[u8], place: u64) -> Result<(), Stop>
        ensures ok { OnOk result ((root : List ℕ) (ended : List (List ℕ)) (whole : List ℕ) → has root self.old ended
            → ComesBehind KEPT ended whole line.now place → has root self.new (ended ++ whole ∷ [])) }
        ensures err { IfErr result (λ stop. (root : List ℕ) (ended : List (List ℕ)) (whole : List ℕ) → has root self.old ended
            → ComesBehind KEPT ended whole line.now place → HasStopped source (says root) (ended ++ whole ∷ []) stop) };

    /// What all lines say.
    fn finish(self) -> Self::Value
        ensures { (root : List ℕ) (lines : List (List ℕ)) → has root self lines → says root lines (Ok result) };
}
