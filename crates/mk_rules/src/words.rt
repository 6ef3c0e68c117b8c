//! The names that the words of a text spell.
ghost use Rattle.mk_rules.specs.Words.{GivesNames, names_in};

use mk_include::words::words;
use mk_name::fault::Halt;
use mk_name::name::Name;
use mk_text::root::Root;
use mk_text::spelling::plain_word;
use std::alloc::Global;

/// The names that the words of a text spell, in their order.
///
/// `BadName` reports the first word that spells no name. Its source is the makefile and its place 0.
pub(crate) fn names_in(alloc: Global, text: &[u8], root: &Root) -> Result<Vec<Name>, Halt>
    ensures { GivesNames result (names_in root.now text.now) }
{
    let words = words(alloc, text)?;
    let mut names = Vec::with_capacity(alloc, words.len())?;
    for word in &words {
        names.push(plain_word(alloc, word, root)?)?;
    }
    Ok(names)
}
