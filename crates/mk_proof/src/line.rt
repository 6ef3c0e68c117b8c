//! What the lines of a proof say.
ghost use Rattle.std.specs.Prelude.{◌≡◌, ◌≤◌, ◌∷◌, [], List, ℕ, option_map, IfNone, IfOk, IfSome};
ghost use Rattle.std.specs.Fmt.{decimal};
ghost use Rattle.hex.specs.Hex.{encode_lower};
ghost use Rattle.mk_proof.specs.Drafts.{AreNodes, AreShort, Finds, IsCount, IsPath, IsShort, IsTimed};
ghost use Rattle.mk_proof.specs.ProofText.{Word, count_line, nodes_line, path_line, step_line, time_line, words_of};
ghost use Rattle.mk_proof.specs.Shapes.{greatest_node, node_of};

use crate::certificate::{GREATEST_NODE, MOST_CHAINS};
use crate::number::{cut, number, pair};
use crate::step::Step;
use crate::trace::GREATEST_TIME;
use hex::FromHexError;
use std::alloc::{AllocError, Global};

/// The text behind a word and a space.
fn behind<'a>(word: &[u8], line: &'a [u8]) -> Option<&'a [u8]>
    ensures behind { IfSome result (λ rest. words_of line.now ≡ word.now ∷ words_of rest.now) }
    ensures none { IfNone result ((next : Word) (more : List Word) → ¬ (words_of line.now ≡ word.now ∷ next ∷ more)) }
{
    let (first, rest) = cut(b' ', line)?;
    if first == word { Some(rest) } else { None }
}

/// The number behind a word and a space, and nothing else.
fn number_behind(word: &[u8], line: &[u8]) -> Option<u32>
    ensures { Finds (λ n. word.now ∷ decimal n ∷ []) IsShort (words_of line.now) result }
{
    number(behind(word, line)?)
}

/// The two numbers behind a word and a space, and nothing else.
fn pair_behind(word: &[u8], line: &[u8]) -> Option<(u32, u32)>
    ensures { Finds (λ numbers. word.now ∷ decimal numbers.0 ∷ decimal numbers.1 ∷ []) AreShort (words_of line.now) result }
{
    pair(behind(word, line)?)
}

/// The node behind a word and a space, and nothing else.
fn node_behind(word: &[u8], line: &[u8]) -> Option<u32>
    ensures { Finds (λ n. word.now ∷ decimal n ∷ []) (λ n. n ≤ greatest_node) (words_of line.now) result }
{
    let node = number_behind(word, line)?;
    if node <= GREATEST_NODE {
        Some(node)
    } else {
        None
    }
}

/// The number of chains that the first line of a certificate has.
pub(crate) fn count_in(line: &[u8]) -> Option<usize>
    ensures { Finds count_line IsCount (words_of line.now) result }
{
    let count = number_behind(b"certificate", line)? as usize;
    if count <= MOST_CHAINS {
        Some(count)
    } else {
        None
    }
}

/// The nodes that the first line of a trace has.
pub(crate) fn nodes_in(line: &[u8]) -> Option<(u32, u32)>
    ensures { Finds nodes_line AreNodes (words_of line.now) result }
{
    let (first, second) = pair_behind(b"trace", line)?;
    if first < second && second <= GREATEST_NODE {
        Some((first, second))
    } else {
        None
    }
}

/// The bytes, one or more, that a text spells in lower case hexadecimal. The only error is out of memory.
fn bytes_in(alloc: Global, text: &[u8]) -> Result<Option<Vec<u8>>, AllocError>
    ensures { IfOk result (λ found. Finds encode_lower IsPath text.now (option_map (λ bytes. bytes.items) found)) }
{
    let bytes = match hex::decode(alloc, text) {
        Ok(bytes) => bytes,
        Err(FromHexError::OutOfMemory) => return Err(AllocError),
        Err(_) => return Ok(None),
    };
    let spelled = hex::encode(alloc, bytes.as_slice())?;
    if bytes.is_empty() || spelled.as_bytes() != text {
        return Ok(None);
    }
    Ok(Some(bytes))
}

/// The path that the second line of a trace has. The only error is out of memory.
pub(crate) fn path_in(alloc: Global, line: &[u8]) -> Result<Option<Vec<u8>>, AllocError>
    ensures { IfOk result (λ found. Finds path_line IsPath (words_of line.now) (option_map (λ bytes. bytes.items) found)) }
{
    match behind(b"path", line) {
        Some(text) => bytes_in(alloc, text),
        None => Ok(None),
    }
}

/// The time that a line has, beside its node.
pub(crate) fn time_in(line: &[u8]) -> Option<(u32, u32)>
    ensures { Finds time_line IsTimed (words_of line.now) result }
{
    let (node, time) = pair_behind(b"time", line)?;
    if node <= GREATEST_NODE && time <= GREATEST_TIME {
        Some((node, time))
    } else {
        None
    }
}

/// The step that a line has.
pub(crate) fn step_in(line: &[u8]) -> Option<Step>
    ensures { Finds step_line (λ step. node_of step ≤ greatest_node) (words_of line.now) result }
{
    if let Some(node) = node_behind(b"skip", line) {
        return Some(Step::Skip(node));
    }
    if let Some(node) = node_behind(b"start", line) {
        return Some(Step::Start(node));
    }
    Some(Step::Finish(node_behind(b"finish", line)?))
}
