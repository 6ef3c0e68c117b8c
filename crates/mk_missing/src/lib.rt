//! Builds of old trees: what recipes must watch so that such a build leaves what a build of a clean tree leaves.
//!
//! `violations` lists what jobs do not declare, the files whose change such a build would pass over, and decides by it whether jobs are
//! declared, as `specs/Watching.antt` says what that is. `specs/Violations.antt` says what each kind is. `laws` has what holds of declared
//! jobs.
#![tactic(auto)]

mod always;
mod checker;
mod flaws;
mod hearing;
mod kept;
mod kind;
pub mod laws;
mod order;
mod present;
mod unlisted;
mod users;
pub mod violations;
mod watching;
pub mod worked;
mod writers;
mod wrong;
