//! What is looked up of a name, once.
ghost use Rattle.std.specs.Prelude.{◌≡◌, List};
ghost use Rattle.mk_name.specs.Names as names;
ghost use Rattle.mk_rules.specs.Book.{Book};
ghost use Rattle.mk_graph.specs.Looked.{looked_of};
ghost use Rattle.mk_graph.specs.Makers.{is_unknown};

use mk_name::name::Name;
use mk_rules::rulebook::Rulebook;
use mk_text::listing::Listing;
use std::marker::Model;

/// What a book of rules and a listing say of a name.
#[derive(Debug, Drop)]
pub struct Looked<'a> {
    /// The places in the book of the rules that name it as a target.
    pub rules: &'a [usize],
    /// Whether it is phony.
    pub phony: bool,
    /// Whether the listing has it.
    pub listed: bool,
}

impl<'a> Model for Looked<'a> {
    ghost use Rattle.mk_graph.specs.Looked as spec;

    ghost Value = { spec.Looked };

    ghost view = { λ a. record { rules = a.rules.now; phony = a.phony; listed = a.listed } };
}

/// What a book and a listing say of a name.
pub(crate) fn look<'a>(book: &'a Rulebook, listing: &Listing, name: &Name) -> Looked<'a>
    ensures { result ≡ looked_of book.now listing.now name.now }
{
    Looked {
        rules: book.rules_of(name),
        phony: book.is_phony(name),
        listed: listing.contains(name),
    }
}

/// Whether a name of which this was looked up is neither phony nor a target nor listed.
pub(crate) fn is_unknown(looked: &Looked<'_>) -> bool
    ensures { (book : Book) (listing : List names.Name) (t : names.Name) → looked.now ≡ looked_of book listing t
        → result ≡ is_unknown book listing t }
{
    !looked.phony && looked.rules.is_empty() && !looked.listed
}
