//! Who uses which path: an index of the paths that nodes read and write.
//!
//! [`index::Index`] knows which nodes use a path and where two nodes overlap first. `bits` and `table` are rows of marks and of
//! numbers. Read `specs/Uses.antt` first.
#![tactic(auto)]

pub mod bits;
mod gather;
mod holders;
pub mod index;
mod marks;
mod meets;
mod nearest;
mod over;
mod places;
mod sweep;
pub mod table;
mod ups;
