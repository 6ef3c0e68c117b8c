//! Tasks: a graph that somebody else knows, as a text, and the jobs that it means.
//!
//! [`reading::read_tasks`] takes a line of JSON for each task, and gives [`mk_jobs::jobs::Jobs`] in which each is a node that
//! is always due, or the first line at fault. Read `specs/Lines.antt` first, then `specs/Tasks.antt` and `specs/JobsOf.antt`.
#![tactic(auto)]

pub mod labels;
pub mod laws;
pub mod line;
pub mod making;
pub mod needs;
pub mod reading;
pub mod tasks;
