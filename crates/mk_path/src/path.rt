//! Paths of footprints.
ghost use Rattle.std.specs.Prelude.{◌≡◌, IfOk};

use mk_name::name::Name;
use std::alloc::{AllocError, Global};

/// A path of a footprint (profile): a name; or a tree, which is a name and all that stands below it. Paths are ordered by
/// name, and of one name the file stands before the tree.
#[derive(Debug, Drop, PartialEq, Eq, PartialOrd, Ord)]
pub struct Path {
    pub name: Name,
    pub tree: bool,
}

impl Path {
    /// An equal path. The only error is out of memory.
    pub fn copy(&self, alloc: Global) -> Result<Path, AllocError>
        ensures { IfOk result (λ path. path ≡ self.now) }
    {
        Ok(Path {
            name: self.name.copy(alloc)?,
            tree: self.tree,
        })
    }
}
