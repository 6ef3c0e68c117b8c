//! Tests of the libraries that stand between a book of rules and a program's answer, by their public calls: what footprints
//! leave in jobs; a plan that is attached again; listings and footprints that come in pieces; events of no node, names that no
//! log can hold, and a run in serial order; tasks that say when they are due; builds that are planned twice. They stand in a crate
//! of their own, so that no library is proved a second time for its tests. What the program says is shown by cases, also where a
//! text has a fault.
#![tactic(auto)]

#[cfg(test)]
mod attaching;
#[cfg(test)]
mod builds;
#[cfg(test)]
mod due;
#[cfg(test)]
mod events;
#[cfg(test)]
mod footprints;
#[cfg(test)]
mod pieces;
#[cfg(test)]
mod reported;
#[cfg(test)]
mod serialising;
#[cfg(test)]
mod twice;
#[cfg(test)]
mod writing;
