//! Worked cases. Each function's contract is a case, computed from the definitions, and its body is empty.
ghost use Rattle.mk_missing.specs.EditedSource.{EditsLeave};
ghost use Rattle.mk_missing.specs.Unpacking.{UnpacksAfresh};

/// A recipe empties a folder and unpacks an archive there. It meets all premises, and a member that the archive lost is gone.
pub fn unpacks_afresh()
    ensures { UnpacksAfresh }
{}

/// After an edit a recipe looks where it was not seen to look: a build of an old tree leaves the footprints.
pub fn edits_leave()
    ensures { EditsLeave }
{}
