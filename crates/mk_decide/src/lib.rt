//! The order of nodes, and whether jobs are race-free, and what shows it.
//!
//! [`decision::decide`] gives the chains that put all clashing pairs in order, or the trace of the least race;
//! [`short::decide_short`] gives those of neighbours alone, from which all others follow. `before` says
//! what it takes to ask which node comes before which; `rows` and `walk` answer it. Read `specs/Races.antt` first. Nothing
//! here goes over all pairs of nodes.
#![tactic(auto)]

pub mod before;
mod certificate;
pub mod chains;
pub mod decision;
pub mod laws;
pub mod least;
mod marks;
pub mod neighbours;
pub mod pairs;
pub mod rows;
pub mod short;
mod traces;
pub mod walk;
pub mod words;
