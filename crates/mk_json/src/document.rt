//! Texts of JSON that were read.
ghost use Rattle.std.specs.Prelude.{◌≡◌, is_some, true};
ghost use Rattle.json.specs.Value.{value_view};
ghost use Rattle.serde_json.specs.Read.{of_json};

use json::Value;

/// A text of JSON that was read, over the text itself. Each number in it has a value: it is whole and has at most 64 bits, or
/// the nearest float is finite.
#[derive(Debug, Drop)]
pub struct Document<'a> {
    /// The value that the text is.
    pub value: Value<'a>,
    ghost meant: { is_some (of_json (value_view value)) ≡ true },
}
