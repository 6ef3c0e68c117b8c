//! From the text of a proof to the proof, or to the first line at fault.
ghost use Rattle.std.specs.Prelude.{◌≡◌, ◌+◌, ◌<◌, ◌^◌};
ghost use Rattle.mk_name.specs.Gives.{Answers};
ghost use Rattle.mk_name.specs.declared.fault.Halt.TheVariants as halts;
ghost use Rattle.mk_proof.specs.ProofText.{IsProofRead, reported};

use crate::draft::Draft;
use crate::number::cut;
use crate::proof::Proof;
use mk_name::fault::{Fault, Halt, Kind, Source};
use std::alloc::Global;

/// Reads a proof (profile); docs/FORMATS.md has the two forms. Each proof has one text, and no other text is read: a
/// number has no leading zero, words have one space between them, each line ends in a newline, and nothing follows.
///
/// The first line that is missing, has no newline or does not fit behind those before it is `BadProof`, at that line.
pub fn read_proof(alloc: Global, text: &[u8]) -> Result<Proof, Halt>
    ensures { Answers result (IsProofRead text.now) }
{
    let mut draft = Draft::Empty;
    let mut good = 0;
    let mut rest = text;
    'lines: while let Some((line, behind)) = cut(b'\n', rest) {
        if !draft.add(alloc, line)? {
            return Err(bad_line(alloc, good));
        }
        good += 1;
        rest = behind;
    }
    match draft.finish() {
        Some(proof) if rest.is_empty() => Ok(proof),
        _ => Err(bad_line(alloc, good)),
    }
}

/// The fault of the line behind so many good ones.
fn bad_line(alloc: Global, good: usize) -> Halt
    requires { good + 1 < 2 ^ 64 }
    ensures { result ≡ halts.Fault (reported (good + 1)) }
{
    let place = good as u64 + 1;
    Halt::Fault(Fault::new(Kind::BadProof, Source::Proof, place, Vec::new(alloc)))
}
