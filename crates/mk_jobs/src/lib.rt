//! The model of a build, without makefiles: a plan of nodes in serial order, and jobs, which are a plan with what each recipe
//! may read and write.
//!
//! The schedules, the order of nodes, the certificates and the laws are proved over these definitions alone. Read
//! `specs/Plan.antt` first, then `specs/Jobs.antt`: what is before what, when two recipes clash, when jobs are race-free.
#![tactic(auto)]

pub mod jobs;
pub mod laws;
pub mod maker;
mod needs;
pub mod numbering;
pub mod plan;
pub mod recipe;
