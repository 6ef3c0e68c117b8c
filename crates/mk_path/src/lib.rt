//! The paths of footprints: a name, or a tree, which is a name and all that stands below it.
//!
//! [`path::Path`] is such a path, and `taken` and `covering` ask what some of them cover. Read `specs/Paths.antt` first.
#![tactic(auto)]

pub mod covering;
pub mod laws;
pub mod path;
pub mod spelling;
pub mod taken;
