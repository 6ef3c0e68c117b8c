//! Laws of builds of old trees. Each function's contract is a law, and its body is empty.
ghost use Rattle.mk_missing.specs.Incremental.{AsFromClean, OldTreesStay};
ghost use Rattle.mk_missing.specs.Laws.{BuildSettles, EditIsKnown, SettledOnce};
ghost use Rattle.mk_missing.specs.Running.{RunsByReason};

/// Of valid, race-free and declared jobs, a build of a tree that edits and builds led to leaves what a build of a clean tree with the
/// same sources leaves.
pub fn as_from_clean()
    ensures { AsFromClean }
{}

/// A build of an old tree stays within the footprints, if a build of a clean tree with the same sources does.
pub fn old_trees_stay()
    ensures { OldTreesStay }
{}

/// A build of a store whose nodes are known, if it stays within the footprints, leaves one whose nodes are settled.
pub fn build_settles()
    ensures { BuildSettles }
{}

/// An edit of a store whose nodes are settled leaves one whose nodes are known.
pub fn edit_is_known()
    ensures { EditIsKnown }
{}

/// Two stores with the same sources whose nodes are settled have the same bytes at every name.
pub fn settled_once()
    ensures { SettledOnce }
{}

/// In a complete build of an old tree a recipe runs exactly if its node is stale when the build begins, or a prerequisite of it writes
/// its own file.
pub fn runs_by_reason()
    ensures { RunsByReason }
{}
