//! The words of include lines.
ghost use Rattle.std.specs.Prelude.{◌≡◌, [], ◌∷◌, map, IfOk, option_map};
ghost use Rattle.std.specs.Result.{result_map_both};
ghost use Rattle.mk_name.specs.Gives.{Gives};
ghost use Rattle.mk_include.specs.Includes.{texts_of};
ghost use Rattle.mk_include.specs.Words.{opened, word_text, word_reported, words_of};

use crate::cut::Cut;
use crate::includes::Includes;
use mk_name::fault::{Fault, Halt, Kind, Source};
use mk_name::name::Name;
use mk_text::lexical::is_blank;
use mk_text::root::Root;
use mk_text::spelling::plain_word;
use std::alloc::{AllocError, Global};

/// So many texts may be taken in, each as often as it is (profile).
pub const INCLUDE_LIMIT: usize = 1_000;

/// The words of a text: what stands between its blanks. The only error is out of memory.
pub fn words(alloc: Global, text: &[u8]) -> Result<Vec<&[u8]>, AllocError>
    ensures { IfOk result (λ words. map (λ word. word.now) words.items ≡ words_of text.now) }
{
    text.split(|byte| is_blank(*byte))
        .filter(|word| !word.is_empty())
        .collect(alloc)
}

/// The text of this name, unless it lies too deep or is one too many.
fn opened<'i, 't>(
    alloc: Global,
    room: usize,
    taken: usize,
    name: Name,
    cut: &'i Cut<'t>,
) -> Result<Option<(Name, &'i Cut<'t>)>, Halt>
    ensures { Gives
        (result_map_both (option_map (λ text. (text.0, text.1.now))) (λ halt. halt) result)
        (opened room taken name cut.now) }
{
    if room == 0 {
        let kind = Kind::IncludeTooDeep;
        let fault = Fault::naming(alloc, kind, Source::Makefile, 0, name)?;
        return Err(Halt::Fault(fault));
    }
    if taken >= INCLUDE_LIMIT {
        let kind = Kind::TooManyIncludes;
        return Err(Halt::Fault(Fault::unnamed(alloc, kind, Source::Makefile, 0)));
    }
    Ok(Some((name, cut)))
}

/// The fault of a name that no text has.
fn unknown(alloc: Global, name: Name) -> Result<Fault, AllocError>
    ensures { IfOk result (λ fault. fault ≡ word_reported Kind.UnknownInclude (name ∷ [])) }
{
    Fault::naming(alloc, Kind::UnknownInclude, Source::Makefile, 0, name)
}

/// The text that a word of an include line names, with its plain name. Texts may still open `room` deep
/// inside one another, and `taken` were taken in already. With a hyphen before the line's first word a name
/// that no text has is passed over.
///
/// Errors, the first that applies: `BadName` with the word as it stands; `UnknownInclude` and
/// `IncludeTooDeep` with the plain name; `TooManyIncludes` without names. The source is the makefile and the
/// place 0: the caller moves it. Out of memory may come in place of any answer.
pub fn word_text<'i, 't>(
    alloc: Global,
    includes: &'i Includes<'t>,
    hyphen: bool,
    room: usize,
    taken: usize,
    word: &[u8],
    root: &Root,
) -> Result<Option<(Name, &'i Cut<'t>)>, Halt>
    ensures { Gives
        (result_map_both (option_map (λ text. (text.0, text.1.now))) (λ halt. halt) result)
        (word_text root.now (texts_of includes.now) hyphen room taken word.now) }
{
    let name = plain_word(alloc, word, root)?;
    match includes.find(&name) {
        Some(cut) => opened(alloc, room, taken, name, cut),
        None if hyphen => Ok(None),
        None => Err(Halt::Fault(unknown(alloc, name)?)),
    }
}
