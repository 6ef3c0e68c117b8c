//! All races of jobs, and the edges that fix them.
//!
//! `races` lists all races, and `fix` finds the fix: the races that, as edges, make jobs race-free, and of which each is
//! needed. Read `specs/Fixes.antt` first; `laws` says that the fix is the only one and the weakest. `added` and `again` make
//! and compare jobs with edges added.
#![tactic(auto)]

pub mod added;
pub mod again;
pub mod fix;
pub mod laws;
pub mod races;
