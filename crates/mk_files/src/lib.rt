//! The files of a request: what opens them, and what is read of them.
//!
//! [`openers::Opener`] is all that is known of files. [`inputs::read_inputs`] reads the whole texts of inputs, [`includes::read_includes`]
//! those for include lines, and [`builds::read_build`] a build whose listing and footprints come in pieces, or [`builds::read_plan`]
//! what it is planned from. Read `specs/Inputs.antt` first, which says which failure is reported.
#![tactic(auto)]

pub mod builds;
pub mod failures;
pub mod includes;
pub mod inputs;
pub mod openers;
