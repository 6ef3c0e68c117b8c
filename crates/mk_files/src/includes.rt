//! The texts that include lines may name: a file names theirs, one path a line.
ghost use Rattle.std.specs.Prelude.{◌≡◌, ◌++◌, IfErr, IfOk, IfSome, List, OnOk, Some, map, option_map, ℕ};
ghost use Rattle.std.specs.List.{All, Contains};
ghost use Rattle.mk_text.specs.Lexical.{physical_lines};
ghost use Rattle.mk_files.specs.Includes as spec;

use crate::failures::Failure;
use crate::inputs::{opened, text_in};
use crate::openers::Opener;
use mk_request::inputs::InputFile;
use mk_text::lexical::split_line;
use std::alloc::{AllocError, Global};
use std::str;

/// A path, and the text of its file.
#[derive(Drop)]
pub struct IncludeText {
    pub path: Vec<u8>,
    pub text: Vec<u8>,
}

/// The texts that the file of this path names, one path a line; empty lines are skipped, and without a path there are none.
/// Each file is opened as its path is written, and read to its end before the next is opened. `Failure::Read` says that
/// one of them cannot be opened, such as a path that is no UTF-8, or cannot be read; the only other failure is out of
/// memory.
pub fn read_includes<P: Opener>(
    alloc: Global,
    opener: &mut P,
    path: Option<&str>,
) -> Result<Vec<IncludeText>, Failure>
    ensures reported { IfOk result (λ texts. (pairs : List spec.Pair)
        → spec.includes_in (P.files opener.old).text (option_map (λ path. path.now) path.entry) ≡ Some pairs
        → spec.shown texts.items ≡ pairs) }
    ensures read { OnOk result (spec.IncludesMayBeRead (P.files opener.old)
        (option_map (λ path. path.now) path.entry)) }
    ensures failure { IfErr result (spec.IsFailure (spec.IncludesMayFail (P.files opener.old)
        (option_map (λ path. path.now) path.entry))) }
    ensures same { P.files opener.new ≡ P.files opener.old }
{
    match path {
        None => Ok(Vec::new(alloc)),
        Some(path) => {
            let listed = read_file(alloc, opener, path)?;
            read_listed(alloc, opener, &listed)
        }
    }
}

/// The texts as pairs of bytes. The only error is out of memory.
pub fn pairs_of<'a>(
    alloc: Global,
    texts: &'a [IncludeText],
) -> Result<Vec<(&'a [u8], &'a [u8])>, AllocError>
    ensures { IfOk result (λ pairs. map (λ pair. (pair.0.now, pair.1.now)) pairs.items
        ≡ spec.shown texts.entry.now) }
{
    let mut pairs = Vec::new(alloc);
    for known in texts {
        pairs.push((known.path.as_slice(), known.text.as_slice()))?;
    }
    Ok(pairs)
}

/// The texts that these lines name.
fn read_listed<P: Opener>(
    alloc: Global,
    opener: &mut P,
    listed: &[u8],
) -> Result<Vec<IncludeText>, Failure>
    ensures reported { IfOk result (λ texts. (pairs : List spec.Pair)
        → spec.pairs_of (P.files opener.old).text (physical_lines listed.now) ≡ Some pairs
        → spec.shown texts.items ≡ pairs) }
    ensures read { OnOk result (All (spec.LineMayBeRead (P.files opener.old)) (physical_lines listed.now)) }
    ensures failure { IfErr result (spec.IsFailure ((line : List ℕ)
        × Contains (physical_lines listed.now) line × spec.LineMayFail (P.files opener.old) line)) }
    ensures same { P.files opener.new ≡ P.files opener.old }
{
    let mut texts = Vec::new(alloc);
    let mut rest = Some(listed);
    'lines: while let Some(listed) = rest {
        let (line, later) = split_line(listed);
        read_line(alloc, opener, &mut texts, line)?;
        rest = later;
    }
    Ok(texts)
}

/// Adds the text that a line names.
fn read_line<P: Opener>(
    alloc: Global,
    opener: &mut P,
    texts: &mut Vec<IncludeText>,
    line: &[u8],
) -> Result<(), Failure>
    ensures reported { OnOk result ((pairs : List spec.Pair)
        → spec.line_pairs (P.files opener.old).text line.now ≡ Some pairs
        → spec.shown texts.new.items ≡ spec.shown texts.old.items ++ pairs) }
    ensures read { OnOk result (spec.LineMayBeRead (P.files opener.old) line.now) }
    ensures failure { IfErr result (spec.IsFailure (spec.LineMayFail (P.files opener.old) line.now)) }
    ensures same { P.files opener.new ≡ P.files opener.old }
{
    if line.is_empty() {
        return Ok(());
    }
    let Ok(path) = str::from_utf8(line) else {
        return Err(Failure::Read(InputFile::Include));
    };
    let text = read_file(alloc, opener, path)?;
    let path = Vec::from_slice(alloc, line)?;
    texts.push(IncludeText { path, text })?;
    Ok(())
}

/// The text of the file of this path.
fn read_file<P: Opener>(alloc: Global, opener: &mut P, path: &str) -> Result<Vec<u8>, Failure>
    ensures reported { IfOk result (λ text. IfSome ((P.files opener.old).text path.now)
        (λ bytes. text.items ≡ bytes)) }
    ensures read { OnOk result (spec.MayBeRead (P.files opener.old) path.now) }
    ensures failure { IfErr result (spec.IsFailure (spec.MayFail (P.files opener.old) path.now)) }
    ensures same { P.files opener.new ≡ P.files opener.old }
{
    let file = opened(opener, InputFile::Include, path)?;
    text_in(alloc, InputFile::Include, file)
}
