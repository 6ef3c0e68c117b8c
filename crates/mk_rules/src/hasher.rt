//! The hasher of the tables of a rulebook.
ghost use Rattle.std.specs.Prelude.{◌≡◌};
ghost use Rattle.std.specs.Hash.DefaultHasher as sip;
ghost use Rattle.sha2.specs.Sha256.{sha256};
ghost use Rattle.mk_table.specs.Hashing.{key_text};
ghost use Rattle.mk_rules.specs.Hashing.{names_of};

use crate::rule::Rule;
use mk_table::hasher::{NameHasher, feed};
use sha2::{Digest, Sha256};

/// The maker of hashers for tables of the names of these entries.
pub(crate) fn hasher_of(entries: &[Rule]) -> NameHasher
    ensures { result ≡ sip.write sip.initial (sha256 (key_text (names_of entries.now))) }
{
    let mut digest = Sha256::new();
    for entry in entries {
        feed(&mut digest, entry.targets());
        feed(&mut digest, entry.prerequisites());
    }
    NameHasher::of_digest(digest)
}
