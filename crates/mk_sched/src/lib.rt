//! Schedules: what a list of events may be, what it leaves, and the laws of such lists.
//!
//! [`replay::replay`] says whether events are a run of jobs, and what they leave. Read `specs/Runs.antt` first, then
//! `specs/Laws.antt`, which ends in the headline.
#![tactic(auto)]

pub mod contents;
pub mod event;
pub mod file;
mod grouping;
mod judge;
pub mod laws;
pub mod refusal;
pub mod replay;
pub mod serialising;
mod stage;
mod stale;
mod state;
pub mod store;
mod times;
pub mod worked;
