//! Laws of what covers what. Each function's contract is a law, and its body is empty.
ghost use Rattle.mk_path.specs.Laws.{CoversByComponents, CoversOwnName, FoldersBegin, IsOwnFolder, OverCovers, OverCoversName, OverFurther, OverSelf, PathsOfOneName, TreesOverOne};

/// The folders of a folder are the first of the folders of what stands in it, and a name is one of its own.
pub fn folders_begin()
    ensures own { IsOwnFolder }
    ensures begin { FoldersBegin }
{}

/// Each path is over itself, and over what the paths below it are over.
pub fn over_is_order()
    ensures itself { OverSelf }
    ensures further { OverFurther }
{}

/// Of two trees over one path, and of two paths that cover one name, one is over the other.
pub fn over_meets()
    ensures trees { TreesOverOne }
    ensures names { PathsOfOneName }
{}

/// A path covers its own name, and the name and all that is covered of each path that it is over.
pub fn over_covers()
    ensures own { CoversOwnName }
    ensures name { OverCoversName }
    ensures all { OverCovers }
{}

/// A tree covers a plain name exactly where the components that the tree's path stands for, from the top down, are the
/// first of those that the other path stands for.
pub fn covers_by_components()
    ensures { CoversByComponents }
{}
