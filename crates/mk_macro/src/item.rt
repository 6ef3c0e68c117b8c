//! The items of a text: runs of bytes that stand for themselves, and references (POSIX.1-2024 XCU
//! make, "Macros").
ghost use Rattle.std.specs.Prelude.{◌≡◌, ◌≤◌, ◌<◌, true, false, List, [], ◌∷◌, ◌++◌, length, map, take, drop, ◌==◌, IfNone, IfSome};
ghost use Rattle.std.specs.List.{position};
ghost use Rattle.std.specs.Option.{option_map_or};
ghost use Rattle.mk_macro.specs.Reference.{Plain};
ghost use Rattle.mk_macro.specs.References.{before, behind, bracketed, changing, closed_by, dollar_item, dollar_length, holds, items_of, reference_to};
ghost use Rattle.mk_macro.specs.Runs.{items_in};

use memchr::memchr;
use mk_text::lexical::is_macro_name;
use std::marker::Model;

/// A substitution: what stands at the end of a word, and what comes in its place.
#[derive(Debug, Drop)]
pub struct Change<'a> {
    from: &'a [u8],
    to: &'a [u8],
}

impl<'a> Model for Change<'a> {
    ghost use Rattle.mk_macro.specs.Reference.{Change};

    ghost Value = { Change };

    ghost view = { λ a. record { from = a.from.now; to = a.to.now } };
}

impl<'a> Change<'a> {
    /// What stands at the end of a word.
    pub fn from(&self) -> &'a [u8]
        ensures { result.now ≡ self.now.from }
    {
        self.from
    }

    /// What comes in its place.
    pub fn to(&self) -> &'a [u8]
        ensures { result.now ≡ self.now.to }
    {
        self.to
    }
}

/// A reference to a macro, with its substitution where it has one.
#[derive(Debug, Drop)]
pub struct Reference<'a> {
    name: &'a [u8],
    change: Option<Change<'a>>,
}

impl<'a> Model for Reference<'a> {
    ghost use Rattle.mk_macro.specs.Reference.{Reference};

    ghost Value = { Reference };

    ghost view = { λ a. record { name = a.name.now; change = a.change } };
}

impl<'a> Reference<'a> {
    /// The macro's name.
    pub fn name(&self) -> &'a [u8]
        ensures { result.now ≡ self.now.name }
    {
        self.name
    }

    /// The substitution.
    pub fn change(&self) -> &Option<Change<'a>>
        ensures { result.now ≡ self.now.change }
    {
        &self.change
    }

    /// The substitution, where the name is needed no more.
    pub fn into_change(self) -> Option<Change<'a>>
        ensures { result ≡ self.entry.change }
    {
        self.change
    }
}

/// What a text consists of.
#[derive(Debug, Drop)]
pub enum Item<'a> {
    /// Bytes that stand for themselves.
    Plain(&'a [u8]),
    Refers(Reference<'a>),
    /// A reference with a wrong form.
    Broken,
}

/// What stands before the first of these bytes, and what stands behind it.
pub fn split_at_byte(text: &[u8], byte: u8) -> Option<(&[u8], &[u8])>
    ensures none { IfNone result (holds byte text.now ≡ false) }
    ensures some { IfSome result (λ cut. holds byte text.now ≡ true) }
    ensures before { IfSome result (λ cut. cut.0.now ≡ before byte text.now) }
    ensures behind { IfSome result (λ cut. cut.1.now ≡ behind byte text.now) }
{
    let at = place_of(text, byte)?;
    Some((&text[..at], &text[at + 1..]))
}

/// The place of the first of these bytes.
fn place_of(text: &[u8], byte: u8) -> Option<usize>
    ensures place { result ≡ position (λ b. b == byte) text.now }
    ensures inside { IfSome result (λ at. at < length text.now) }
{
    memchr(byte, text)
}

/// Whether the text holds the byte.
pub fn holds(text: &[u8], byte: u8) -> bool
    ensures { result ≡ holds byte text.now }
{
    memchr(byte, text).is_some()
}

/// What a reference with this name and this substitution is.
fn reference_to<'a>(name: &'a [u8], change: Option<Change<'a>>) -> Item<'a>
    ensures { items_in result ≡ reference_to name.now change.entry ∷ [] }
{
    if is_macro_name(name) {
        return Item::Refers(Reference { name, change });
    }
    Item::Broken
}

/// A reference with this text behind its colon.
fn changing<'a>(name: &'a [u8], text: &'a [u8]) -> Item<'a>
    ensures { items_in result ≡ changing name.now text.now ∷ [] }
{
    if holds(text, b'%') {
        return Item::Broken;
    }
    match split_at_byte(text, b'=') {
        Some((from, to)) => reference_to(name, Some(Change { from, to })),
        None => Item::Broken,
    }
}

/// A reference with this text between its brackets.
fn bracketed(inside: &[u8]) -> Item
    ensures { items_in result ≡ bracketed inside.now ∷ [] }
{
    if holds(inside, b'$') {
        return Item::Broken;
    }
    match split_at_byte(inside, b':') {
        Some((name, text)) => changing(name, text),
        None => reference_to(inside, None),
    }
}

/// A reference whose brackets hold what stands before the first closing one, and what stands
/// behind that.
fn closed_by(closing: u8, text: &[u8]) -> (Item, &[u8])
    ensures item { items_in result.0 ≡ closed_by closing text.now ∷ [] }
    ensures behind { result.1.now ≡ behind closing text.now }
{
    match split_at_byte(text, closing) {
        Some((inside, rest)) => (bracketed(inside), rest),
        None => (Item::Broken, &text[text.len()..]),
    }
}

/// The item that a dollar sign begins before this text, and what stands behind it.
fn dollar_item(text: &[u8]) -> (Item, &[u8])
    ensures item { items_in result.0 ≡ dollar_item text.now ∷ [] }
    ensures behind { result.1.now ≡ drop (dollar_length text.now) text.now }
{
    match text {
        [] => (Item::Broken, text),
        [b'$', rest @ ..] => (Item::Plain(&text[..1]), rest),
        [b'(', rest @ ..] => closed_by(b')', rest),
        [b'{', rest @ ..] => closed_by(b'}', rest),
        [_, rest @ ..] => (reference_to(&text[..1], None), rest),
    }
}

/// How many bytes stand before the first dollar sign; all where there is none.
fn plain_length(text: &[u8]) -> usize
    ensures within { result ≤ length text.now }
    ensures items { items_of text.now
        ≡ map Plain (take result text.now) ++ items_of (drop result text.now) }
{
    memchr(b'$', text).unwrap_or(text.len())
}

/// The first item of a text, and what stands behind it. Bytes are taken up to the next dollar sign.
pub fn first_item(text: &[u8]) -> Option<(Item, &[u8])>
    ensures items { items_of text.now
        ≡ option_map_or (λ cut. items_in cut.0 ++ items_of cut.1.now) result [] }
    ensures shorter { IfSome result (λ cut. length cut.1.now < length text.now) }
{
    match text {
        [] => None,
        [b'$', rest @ ..] => Some(dollar_item(rest)),
        [_, rest @ ..] => {
            let (bytes, behind) = text.split_at(1 + plain_length(rest));
            Some((Item::Plain(bytes), behind))
        }
    }
}
