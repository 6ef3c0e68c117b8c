//! What each recipe may read and write: footprints from their text, and the jobs of a plan with them.
//!
//! [`reading::read_footprints`] takes a text that lies whole, and [`foot_reader::FootReader`] one in pieces;
//! [`attaching::attach`] gives the jobs of a plan and footprints. Read `specs/Footprints.antt` first, then
//! `specs/Attached.antt`. `object` has what lines of footprints, of tasks and of logs share.
#![tactic(auto)]

pub mod attaching;
pub mod foot_reader;
pub mod footprints;
pub mod line;
pub mod object;
mod owned;
pub mod reading;
pub mod reading_laws;
