//! What stands under the keys of a document's object.
ghost use Rattle.std.specs.Prelude.{◌≡◌, is_some, option_and_then, option_map};
ghost use Rattle.json.specs.Find as spelled;
ghost use Rattle.json.specs.Value.{items_view, value_view};
ghost use Rattle.serde_json.specs.Find.{as_array, as_null, as_number, as_str, as_u64, get};
ghost use Rattle.serde_json.specs.Read.{number_of};
ghost use Rattle.mk_json.specs.Documents.{data_in, data_of, items_in};

use crate::document::Document;
use crate::number::whole;
use json::Value;

/// The whole number that a value is, if it is one.
fn whole_in(value: &Value<'_>) -> Option<u64>
    ensures { result ≡ option_and_then as_u64 (option_and_then number_of (spelled.as_number (value_view value.now))) }
{
    whole(value.as_number()?)
}

/// The items that a value has, if it is a list.
fn items_of<'v, 'a>(value: &'v Value<'a>) -> Option<&'v [Value<'a>]>
    ensures { option_map (λ items. items_view items.now) result ≡ spelled.as_array (value_view value.now) }
{
    match value {
        Value::Array(items) => Some(items.as_slice()),
        _ => None,
    }
}

/// The text that an item of a list is, if it is one.
pub fn text_in<'a>(item: &Value<'a>) -> Option<&'a str>
    ensures { option_map (λ text. text.now) result ≡ as_str (data_in item.now) }
{
    item.as_str()
}

impl<'a> Document<'a> {
    /// The text under a key of the object, of the last member of that name; nothing where there is none, or the document is
    /// no object.
    pub fn text(&self, key: &str) -> Option<&'a str>
        ensures { option_map (λ text. text.now) result
            ≡ option_and_then as_str (get key.now (data_of self.now)) }
    {
        match self.value.get(key) {
            Some(value) => value.as_str(),
            None => None,
        }
    }

    /// The items of the list under a key of the object; nothing where there is no such key, or no list under it. [`text_in`]
    /// gives the text of an item.
    pub fn items(&self, key: &str) -> Option<&[Value<'a>]>
        ensures { option_map (λ items. items_in items.now) result
            ≡ option_and_then as_array (get key.now (data_of self.now)) }
    {
        match self.value.get(key) {
            Some(value) => items_of(value),
            None => None,
        }
    }

    /// The whole number under a key of the object, if it has at most 64 bits and neither a minus, a point nor an exponent.
    pub fn whole(&self, key: &str) -> Option<u64>
        ensures { result ≡ option_and_then as_u64 (option_and_then as_number (get key.now (data_of self.now))) }
    {
        match self.value.get(key) {
            Some(value) => whole_in(value),
            None => None,
        }
    }

    /// Whether `null` stands under a key of the object.
    pub fn is_null(&self, key: &str) -> bool
        ensures { result ≡ is_some (option_and_then as_null (get key.now (data_of self.now))) }
    {
        match self.value.get(key) {
            Some(value) => value.is_null(),
            None => false,
        }
    }
}
