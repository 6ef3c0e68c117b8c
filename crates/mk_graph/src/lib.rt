//! The graph that the rules of makefiles make: who makes each name, what it needs, and the serial order.
//!
//! [`planning::plan`] takes a book of rules, a listing and goals, and gives the plan of all that the goals need, or the first
//! fault of their graph. Read `specs/Makers.antt` first, then `specs/Graph.antt` and `specs/Answer.antt`. The plan itself
//! stands in `mk_jobs`.
#![tactic(auto)]

mod assembly;
mod collect;
mod faults;
mod graph;
mod index;
mod inference;
pub mod laws;
mod looked;
mod makers;
mod numbers;
mod places;
pub mod planning;
mod rows;
mod serial;
mod suffix;
