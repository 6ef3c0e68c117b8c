//! Logs that cannot be written: a name is no text, or an event is of no node.
use crate::builds::{name_of, of_build, store_of};
use mk_jobs::jobs::Jobs;
use mk_log::log::Log;
use mk_log::writing::{LogHalt, are_of_nodes, write_log};
use mk_race::preparing::Prepared;
use mk_sched::event::Event;
use mk_sched::store::Store;
use std::alloc::{AllocError, Global};

/// What becomes of a log.
#[derive(Clone, Copy, PartialEq)]
enum Outcome {
    Text,
    NotText,
    NoNode,
    NoMemory,
}

fn outcome_of(answer: Result<Vec<u8>, LogHalt>) -> Outcome {
    match answer {
        Ok(_) => Outcome::Text,
        Err(LogHalt::NotText) => Outcome::NotText,
        Err(LogHalt::Memory) => Outcome::NoMemory,
    }
}

/// What becomes of a log of these files and events.
fn written(alloc: Global, jobs: &Jobs, store: Store, events: Vec<Event>) -> Outcome {
    let log = Log { store, events };
    if are_of_nodes(jobs, log.events.as_slice()) {
        outcome_of(write_log(alloc, jobs, &log))
    } else {
        Outcome::NoNode
    }
}

/// What becomes of a log that skips a node.
fn skip_written(alloc: Global, jobs: &Jobs, node: u32) -> Outcome {
    match vec![in alloc; Event::Skip(node)] {
        Ok(events) => written(alloc, jobs, Store::new(alloc), events),
        Err(_) => Outcome::NoMemory,
    }
}

fn erasure(alloc: Global, name: &[u8]) -> Result<Vec<Event>, AllocError> {
    let name = name_of(alloc, name)?;
    Ok(vec![in alloc; Event::Erase(1, name)]?)
}

/// What becomes of a log in which the node 1 erases a file.
fn erasure_written(alloc: Global, jobs: &Jobs, name: &[u8]) -> Outcome {
    match erasure(alloc, name) {
        Ok(events) => written(alloc, jobs, Store::new(alloc), events),
        Err(AllocError) => Outcome::NoMemory,
    }
}

/// What becomes of a log of one file and no events.
fn file_written(alloc: Global, jobs: &Jobs, name: &[u8]) -> Outcome {
    match store_of(alloc, name) {
        Ok(store) => written(alloc, jobs, store, Vec::new(alloc)),
        Err(AllocError) => Outcome::NoMemory,
    }
}

/// Whether logs of jobs, of whose two nodes the first has no text for a name, become what they should.
fn are_written(alloc: Global, prepared: &Prepared) -> bool {
    let jobs = &prepared.jobs;
    skip_written(alloc, jobs, 0) == Outcome::NotText
        && skip_written(alloc, jobs, 1) == Outcome::Text
        && skip_written(alloc, jobs, 2) == Outcome::NoNode
        && erasure_written(alloc, jobs, b"\xff") == Outcome::NotText
        && erasure_written(alloc, jobs, b"y") == Outcome::Text
        && file_written(alloc, jobs, b"\xff") == Outcome::NotText
        && file_written(alloc, jobs, b"y") == Outcome::Text
}

#[test]
fn logs_with_names_that_are_no_text(rt: HostRuntime) {
    assert!(rt; of_build(rt.alloc(), are_written));
}
