//! Which texts of numbers have a value, and the whole numbers among them.
ghost use Rattle.std.specs.Prelude.{◌≡◌, ◌<◌, ◌==◌, IsTrue, length, false, is_some, option_and_then, slice_index, true};
ghost use Rattle.serde_json.specs.Find.{as_u64};
ghost use Rattle.serde_json.specs.Read.{number_from, number_of};

use fast_float::Numeral;

/// Whether a numeral without a minus has a value: a whole number of 64 bits, or the nearest float that is finite.
fn is_valued(numeral: &Numeral<'_>) -> bool
    ensures { result ≡ is_some (number_from false numeral.now) }
{
    numeral.to_u64().is_some() || numeral.to_float::<f64>(false).is_finite()
}

/// Whether the numeral behind a minus has a value: a number of 64 bits below zero, or the nearest float that is finite.
fn is_valued_below(numeral: &Numeral<'_>) -> bool
    ensures { result ≡ is_some (number_from true numeral.now) }
{
    if let Some(number) = numeral.to_i64(true) {
        if number < 0 {
            return true;
        }
    }
    numeral.to_float::<f64>(true).is_finite()
}

/// Whether a text begins with a minus.
fn has_minus(text: &[u8]) -> bool
    ensures minus { result ≡ (slice_index text.now 0 == 45) }
    ensures length { IsTrue result → 0 < length text.now }
{
    !text.is_empty() && text[0] == b'-'
}

/// Whether the text of a number has a value.
pub(crate) fn has_value(text: &str) -> bool
    ensures { result ≡ is_some (number_of text.now) }
{
    let bytes = text.as_bytes();
    if has_minus(bytes) {
        is_valued_below(&Numeral::scan(&bytes[1..]))
    } else {
        is_valued(&Numeral::scan(bytes))
    }
}

/// The whole number of 64 bits that a numeral without a minus writes, if it is one.
fn whole_of(numeral: &Numeral<'_>) -> Option<u64>
    ensures { result ≡ option_and_then as_u64 (number_from false numeral.now) }
{
    numeral.to_u64()
}

/// The whole number of 64 bits that the text of a number writes without a minus, a point and an exponent, if it is one.
pub(crate) fn whole(text: &str) -> Option<u64>
    ensures { result ≡ option_and_then as_u64 (number_of text.now) }
{
    let bytes = text.as_bytes();
    if has_minus(bytes) {
        None
    } else {
        whole_of(&Numeral::scan(bytes))
    }
}
