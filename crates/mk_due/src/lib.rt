//! Tasks that say when they are due: which file a task makes, and which files make it run.
//!
//! [`reading::read_due_tasks`] takes such lines beside a listing, and gives [`Jobs`](mk_jobs::jobs::Jobs) in which such a task
//! is the node of its file, or the first line at fault. Read `specs/Lines.antt` first, then `specs/Awaited.antt`,
//! `specs/Items.antt` and `specs/JobsOf.antt`, and `specs/Running.antt` for when such a task runs.
#![tactic(auto)]

mod early;
mod item;
pub mod laws;
mod line;
mod making;
mod numbers;
pub mod reading;
mod tally;
pub mod worked;
