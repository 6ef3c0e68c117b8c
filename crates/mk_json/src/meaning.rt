//! Which values of JSON mean something: those in which each number has a value.
ghost use Rattle.std.specs.Prelude.{◌≡◌, is_some};
ghost use Rattle.json.specs.Value.{items_view, members_view, value_view};
ghost use Rattle.serde_json.specs.Data.{no_members};
ghost use Rattle.serde_json.specs.Read.{of_items, of_json, of_members};

use crate::number::has_value;
use json::Value;

/// Whether a value means something.
#[cycle(meaning)]
pub(crate) fn is_meant(value: &Value<'_>) -> bool
    ensures { result ≡ is_some (of_json (value_view value.now)) }
{
    match value {
        Value::Number(text) => has_value(text),
        Value::Array(items) => are_meant(items),
        Value::Object(members) => members_are_meant(members),
        _ => true,
    }
}

/// Whether each item of an array means something.
#[cycle(meaning)]
fn are_meant(items: &Vec<Value<'_>>) -> bool
    ensures { result ≡ is_some (of_items (items_view items.now.items)) }
{
    'items: for item in items {
        if !is_meant(item) {
            return false;
        }
    }
    true
}

/// Whether the value of each member of an object means something.
#[cycle(meaning)]
fn members_are_meant<'a>(members: &Vec<(&'a str, Value<'a>)>) -> bool
    ensures { result ≡ is_some (of_members (members_view members.now.items) no_members) }
{
    'members: for member in members {
        if !is_meant(&member.1) {
            return false;
        }
    }
    true
}
