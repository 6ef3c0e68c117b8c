//! The way in: what devices give of a build, of which the listing and the footprints are read in pieces.
//!
//! [`builds::build_below`] reads the four devices of a build, or [`builds::plan_below`] those that it is planned from, and says which
//! failed. [`devices::read_below`] reads a device to its end, and gives what its bytes say below a root; of the text it keeps the
//! line that is open. What reads such a text is a [`line_reader::LineReader`]. An [`input::Build`] is what a build is made of. Read
//! `specs/Read.antt` first, and then `specs/Builds.antt`.
#![tactic(auto)]

pub mod builds;
pub mod devices;
pub mod input;
pub mod line_reader;
