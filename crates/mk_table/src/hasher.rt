//! The hasher of tables of names.
ghost use Rattle.std.specs.Prelude.{◌≡◌, ◌∷◌, ◌++◌, [], ℕ, List};
ghost use Rattle.std.specs.Hash.DefaultHasher as sip;
ghost use Rattle.sha2.specs.Hashers.{Holds256};
ghost use Rattle.sha2.specs.Sha256.{sha256};
ghost use Rattle.mk_table.specs.Hashing.{key_text};

use indexmap::IndexSet;
use mk_name::name::Name;
use sha2::{Digest, Sha256};
use std::hash::{BuildHasher, DefaultHasher, Hasher};
use std::marker::Model;

/// A set of names in the order in which they came.
pub type NameSet = IndexSet<Name, NameHasher>;

/// Makes hashers whose key is a digest of names. Where these are all names of a text, whoever writes the text changes the
/// key with each name, and so cannot choose names that collide under it.
#[derive(Clone, Copy, Debug)]
pub struct NameHasher {
    keyed: DefaultHasher,
}

impl Model for NameHasher {
    ghost use Rattle.std.specs.declared.hash.DefaultHasher.{DefaultHasher};

    ghost Value = { DefaultHasher };

    ghost view = { λ a. a.keyed };

    ghost inverse = { λ k. record { keyed = k } };
}

impl NameHasher {
    /// The maker of hashers whose key is the digest of these names.
    pub fn of_names(names: &[Name]) -> NameHasher
        ensures { result ≡ sip.write sip.initial (sha256 (key_text names.now)) }
    {
        let mut digest = Sha256::new();
        feed(&mut digest, names);
        NameHasher::of_digest(digest)
    }

    /// The maker of hashers whose key is the digest of what was fed.
    pub fn of_digest(digest: Sha256) -> NameHasher
        ensures { (m : List ℕ) → Holds256 digest m → result ≡ sip.write sip.initial (sha256 m) }
    {
        let mut keyed = DefaultHasher::new();
        keyed.write(&digest.finalize());
        NameHasher { keyed }
    }
}

impl BuildHasher for NameHasher {
    type Hasher = DefaultHasher;

    ghost build_hasher = { λ s. s };

    fn build_hasher(&self) -> DefaultHasher {
        self.keyed
    }
}

/// Feeds a digest a name and a newline.
pub fn feed_name(digest: &mut Sha256, name: &Name)
    ensures { (m : List ℕ) → Holds256 digest.old m → Holds256 digest.new (m ++ key_text (name.now ∷ [])) }
{
    digest.update(name.as_bytes());
    digest.update(b"\n".as_slice());
}

/// Feeds a digest the names, each ended by a newline.
pub fn feed(digest: &mut Sha256, names: &[Name])
    ensures { (m : List ℕ) → Holds256 digest.old m → Holds256 digest.new (m ++ key_text names.now) }
{
    for name in names {
        feed_name(digest, name);
    }
}
