//! Logs: the files of an opening store and the events of a build, as lines of JSON.
//!
//! [`reading::read_log`] takes the text of a log and the jobs of its build, and gives the [`log::Log`], or the first line at
//! fault; [`writing::write_log`] gives the text of a log, which reads as that log and as no other. Read `specs/Logs.antt`
//! first, then `specs/Reading.antt`.
#![tactic(auto)]

mod entry;
pub mod laws;
pub mod log;
mod nodes;
mod object;
pub mod reading;
pub mod writing;
