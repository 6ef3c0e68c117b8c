//! The suffix of a name.
ghost use Rattle.std.specs.Prelude.{◌≡◌};
ghost use Rattle.mk_graph.specs.Suffix.{from_last_period, last_component, suffix_of};

use memchr::memrchr;
use mk_name::name::Name;

/// What stands behind the last slash.
fn last_component(name: &[u8]) -> &[u8]
    ensures { result.now ≡ last_component name.now }
{
    match memrchr(b'/', name) {
        Some(slash) => &name[slash + 1..],
        None => name,
    }
}

/// The text from the last period on; nothing where there is none.
pub(crate) fn from_last_period(text: &[u8]) -> &[u8]
    ensures { result.now ≡ from_last_period text.now }
{
    match memrchr(b'.', text) {
        Some(period) => &text[period..],
        None => &[],
    }
}

/// The suffix of a name: behind the first byte of its last component, all from the last period on. It is empty where no
/// period stands there ("Inference Rules").
pub fn suffix_of(name: &Name) -> &[u8]
    ensures { result.now ≡ suffix_of name.now }
{
    match last_component(name.as_bytes()) {
        [] => &[],
        [_, rest @ ..] => from_last_period(rest),
    }
}
