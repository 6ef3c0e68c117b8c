//! The stages, from the texts of a build to its plan, its jobs and the answer to each question about them.
//!
//! A build is a `Build` of `mk_read`. [`planning::plan_of`] reads its texts one behind another, [`unused::note_build`] makes its jobs, and the
//! other modules answer one question each. Read `specs/Stages.antt` first, which is the order of faults; `specs/Tasked.antt` where a text
//! of tasks takes the place of makefiles.
#![tactic(auto)]

pub mod again;
pub mod fixing;
pub mod judging;
pub mod laws;
pub mod listing;
pub mod missing;
pub mod planning;
pub mod preparing;
pub mod replaying;
pub mod serialising;
pub mod settings;
pub mod tasked;
pub mod tasks_fixing;
pub mod tasks_missing;
pub mod unused;
pub mod verifying;
