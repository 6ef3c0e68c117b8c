//! What makes the names of a graph.
ghost use Rattle.std.specs.Prelude.{◌≡◌, ◌<◌, ℕ, List, length, map, get_or, is_some, None, IfOk};
ghost use Rattle.std.specs.List.{All};
ghost use Rattle.mk_name.specs.Names.{Name};
ghost use Rattle.mk_rules.specs.Book.{Book, has_recipe, places_of};
ghost use Rattle.mk_graph.specs.Looked.{looked_of};
ghost use Rattle.mk_graph.specs.Makers.{inferred_source, is_unmade, maker_of};
ghost use Rattle.mk_jobs.specs.Numbered.{name_at};

use crate::looked::{Looked, is_unknown};
use mk_jobs::maker::Maker;
use mk_jobs::numbering::Numbering;
use mk_rules::rulebook::Rulebook;
use mk_text::listing::Listing;
use std::alloc::{AllocError, Global};

/// Whether a target rule of a name has commands, by the places of its target rules.
pub(crate) fn has_recipe(book: &Rulebook, places: &[usize]) -> bool
    requires { All (λ place. place < length book.now.rules) places.now }
    ensures { (t : Name) → places.now ≡ places_of book.now.rules t → result ≡ has_recipe book.now.rules t }
{
    book.recipe_among(places).is_some()
}

/// What makes a name of which this was looked up, by whether an inference rule does where none of its rules has commands.
fn maker_of(book: &Rulebook, looked: &Looked<'_>, is_inferred: bool) -> Maker
    requires { All (λ place. place < length book.now.rules) looked.now.rules }
    ensures { (listing : List Name) (t : Name) → looked.now ≡ looked_of book.now listing t
        → is_inferred ≡ is_some (inferred_source book.now listing t) → result ≡ maker_of book.now listing t }
{
    if has_recipe(book, looked.rules) {
        Maker::Rule
    } else if is_inferred {
        Maker::Inferred
    } else if book.has_default() && is_unknown(looked) {
        Maker::Default
    } else {
        Maker::Nothing
    }
}

/// What makes each of the names, by what was looked up of them and by their sources. Only the contract speaks of the listing.
pub fn makers_of(
    alloc: Global,
    book: &Rulebook,
    listing: &Listing,
    names: &Numbering,
    looked: &[Looked<'_>],
    sources: &[Option<usize>],
) -> Result<Vec<Maker>, AllocError>
    requires looked { looked.now ≡ map (looked_of book.now listing.now) names.now }
    requires long { length sources.now ≡ length names.now }
    requires inferred { (i : ℕ) → i < length names.now → is_some (get_or sources.now i None)
        ≡ is_some (inferred_source book.now listing.now (name_at names.now i)) }
    ensures { IfOk result
        (λ makers. makers.items ≡ map (maker_of book.now listing.now) names.now) }
{
    let mut makers = Vec::new(alloc);
    for number in 0..names.count() {
        let is_inferred = sources[number].is_some();
        makers.push(maker_of(book, &looked[number], is_inferred))?;
    }
    Ok(makers)
}

/// Whether nothing makes a name of which this was looked up, and it is neither phony nor a target nor listed.
pub fn is_unmade(looked: &Looked<'_>, maker: Maker) -> bool
    ensures { (book : Book) (listing : List Name) (t : Name) → looked.now ≡ looked_of book listing t
        → maker ≡ maker_of book listing t → result ≡ is_unmade book listing t }
{
    match maker {
        Maker::Nothing => is_unknown(looked),
        Maker::Rule | Maker::Inferred | Maker::Default => false,
    }
}
