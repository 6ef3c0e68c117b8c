//! Names with a meaning of their own ("Special Targets", "Inference Rules").
ghost use Rattle.std.specs.Prelude.{◌≡◌, ◌||◌, ◌==◌};
ghost use Rattle.std.specs.List.{list_any};
ghost use Rattle.mk_rules.specs.Special.{is_special, is_suffix, is_suffix_tail, is_wait};

use mk_name::name::Name;

/// Whether the name is that of a special target.
pub(crate) fn is_special(name: &Name) -> bool
    ensures { result ≡ is_special name.now }
{
    let bytes = name.as_bytes();
    b".DEFAULT".as_slice() == bytes
        || b".IGNORE".as_slice() == bytes
        || b".NOTPARALLEL".as_slice() == bytes
        || b".PHONY".as_slice() == bytes
        || b".POSIX".as_slice() == bytes
        || b".PRECIOUS".as_slice() == bytes
        || b".SCCS_GET".as_slice() == bytes
        || b".SILENT".as_slice() == bytes
        || b".SUFFIXES".as_slice() == bytes
        || b".WAIT".as_slice() == bytes
}

/// Whether the name is `.WAIT`.
pub(crate) fn is_wait(name: &Name) -> bool
    ensures { result ≡ is_wait name.now }
{
    name.as_bytes() == b".WAIT".as_slice()
}

/// Whether the name is a suffix: a period with something behind it in which no other period and no slash stands.
pub(crate) fn is_suffix(name: &Name) -> bool
    ensures { result ≡ is_suffix name.now }
{
    match name.as_bytes() {
        [b'.', tail @ ..] => is_suffix_tail(tail),
        _ => false,
    }
}

/// Whether there are bytes, none of them a period or a slash.
fn is_suffix_tail(tail: &[u8]) -> bool
    ensures { result ≡ is_suffix_tail tail.now }
{
    !tail.is_empty() && !has_period_or_slash(tail)
}

/// Whether one of the bytes is a period or a slash.
fn has_period_or_slash(bytes: &[u8]) -> bool
    ensures { result ≡ list_any (λ b. b == 46 || b == 47) bytes.now }
{
    bytes.iter().any(|byte| *byte == b'.' || *byte == b'/')
}
