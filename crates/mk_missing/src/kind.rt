//! What can be wrong with a node and a file.
ghost use Rattle.std.specs.Prelude.{◌≡◌};
ghost use Rattle.mk_missing.specs.Kinds as spec;

use crate::users::Users;

/// What can be wrong with a node and a file: the file is an input that the node does not watch; or one of whose writers is not
/// before it; or the node writes it, and so does a later one, which does not run with it.
#[derive(Clone, Copy, Debug)]
pub(crate) enum Kind {
    Unwatched,
    Late,
    Shared,
}

/// What can be wrong with a file by itself: a recipe writes it, and it is listed; or it is a tree that a recipe writes.
#[derive(Clone, Copy, Debug)]
pub(crate) enum Flaw {
    Listed,
    Tree,
}

/// The users of a file with which something of this kind can be wrong.
pub(crate) fn nodes_of(kind: Kind, users: &Users) -> &[u32]
    ensures { result.now ≡ spec.nodes_of kind users.now }
{
    match kind {
        Kind::Unwatched | Kind::Late => &users.inputs,
        Kind::Shared => &users.writers,
    }
}
