//! A run of two recipes at a time, and the list of its events in serial order. What both runs leave is shown by cases of `replay`.
ghost use Rattle.std.specs.Prelude.{ℕ, ◌≡◌, ◌<◌, false};
ghost use Rattle.mk_name.specs.Names.{has, same_name};
ghost use Rattle.mk_jobs.specs.Jobs.{is_listed, name_of, node_count};
ghost use Rattle.mk_log.specs.Writing.{AreOfNodes};
ghost use Rattle.mk_sched.specs.Serialising.{IsWholeRun};
ghost use Rattle.mk_sched.specs.Steps.{past_of};
ghost use Rattle.mk_sched.specs.Stored.{store_of};
ghost use Rattle.mk_sched.specs.Stores.{AgreesWith};
ghost use Rattle.mk_race.specs.Stages.{AreListed};

use crate::builds::{Texts, build_of};
use mk_decide::decision::{Verdict, decide};
use mk_jobs::jobs::Jobs;
use mk_log::log::Log;
use mk_log::reading::read_log;
use mk_log::writing::{are_of_nodes, write_log};
use mk_race::preparing::Prepared;
use mk_race::unused::note_build;
use mk_read::input::Build;
use mk_sched::event::Event;
use mk_sched::replay::replay;
use mk_sched::serialising::{has_room, serialise};
use mk_sched::store::{Store, copy_store};
use mk_text::listing::Listing;
use std::alloc::Global;

/// A program of two objects, each of a source of its own.
static TEXTS: Texts<'static> = Texts {
    makefile: b"prog: a.o b.o\n\tcc\na.o: a.c\n\tcc\nb.o: b.c\n\tcc\n",
    listing: b"a.c\nb.c\n",
    footprints: br#"{"target":"prog","reads":["a.o","b.o"],"writes":["prog"]}
{"target":"a.o","reads":["a.c"],"writes":["a.o"]}
{"target":"b.o","reads":["b.c"],"writes":["b.o"]}
"#,
};

/// Both objects are made at once, and the second is there first.
static LOG: &[u8] = br#"{"bytes":"61","do":"file","path":"a.c","time":1}
{"bytes":"62","do":"file","path":"b.c","time":1}
{"do":"skip","node":"b.c"}
{"do":"start","node":"b.o"}
{"do":"skip","node":"a.c"}
{"do":"start","node":"a.o"}
{"bytes":"61","do":"look","node":"a.o","path":"a.c"}
{"bytes":"42","do":"put","node":"b.o","path":"b.o","time":5}
{"bytes":"41","do":"put","node":"a.o","path":"a.o","time":9}
{"do":"finish","node":"a.o"}
{"do":"finish","node":"b.o"}
{"do":"start","node":"prog"}
{"bytes":"41","do":"look","node":"prog","path":"a.o"}
{"bytes":"70","do":"put","node":"prog","path":"prog","time":10}
{"do":"finish","node":"prog"}
"#;

/// The same build, one recipe at a time.
static SERIAL_LOG: &[u8] = br#"{"bytes":"61","do":"file","path":"a.c","time":1}
{"bytes":"62","do":"file","path":"b.c","time":1}
{"do":"skip","node":"a.c"}
{"do":"start","node":"a.o"}
{"bytes":"61","do":"look","node":"a.o","path":"a.c"}
{"bytes":"41","do":"put","node":"a.o","path":"a.o","time":2}
{"do":"finish","node":"a.o"}
{"do":"skip","node":"b.c"}
{"do":"start","node":"b.o"}
{"bytes":"42","do":"put","node":"b.o","path":"b.o","time":3}
{"do":"finish","node":"b.o"}
{"do":"start","node":"prog"}
{"bytes":"41","do":"look","node":"prog","path":"a.o"}
{"bytes":"70","do":"put","node":"prog","path":"prog","time":4}
{"do":"finish","node":"prog"}
"#;

/// Whether the text of a log is the serial one.
fn is_written(alloc: Global, jobs: &Jobs, log: &Log) -> bool
    requires { AreOfNodes jobs.now log.now.events }
{
    match write_log(alloc, jobs, log) {
        Ok(text) => text.as_slice() == SERIAL_LOG,
        Err(_) => false,
    }
}

/// Whether the log of these files and events is the serial one.
fn is_serial(alloc: Global, jobs: &Jobs, store: Store, events: Vec<Event>) -> bool {
    let log = Log { store, events };
    are_of_nodes(jobs, log.events.as_slice()) && is_written(alloc, jobs, &log)
}

/// The events of a log, which are a complete run of the jobs, in serial order; none where two jobs race.
fn in_serial_order(alloc: Global, jobs: &Jobs, log: &Log) -> Option<Vec<Event>>
    requires whole { IsWholeRun jobs.now false (store_of log.now.store) (past_of log.now.events) }
    requires agrees { AgreesWith jobs.now (store_of log.now.store) }
{
    match decide(alloc, jobs) {
        Ok(Verdict::Safe(_)) if has_room(&log.store, log.events.len()) => {
            serialise(alloc, jobs, &log.store, false, log.events.as_slice()).ok()
        }
        _ => None,
    }
}

/// The events of a log in serial order, where they are a complete run of the jobs with two recipes at a time.
fn serial_list(alloc: Global, jobs: &Jobs, listing: &Listing, log: &Log) -> Option<Vec<Event>>
    requires { (n : ℕ) → n < node_count jobs.now
        → is_listed jobs.now n ≡ has same_name listing.now (name_of jobs.now n) }
{
    let Ok(store) = copy_store(alloc, &log.store) else {
        return None;
    };
    match replay(alloc, jobs, listing, store, 2, false, log.events.as_slice()) {
        Ok(replayed) if replayed.complete => in_serial_order(alloc, jobs, log),
        _ => None,
    }
}

/// Whether the run of the log is put in serial order.
fn is_put_in_order(alloc: Global, prepared: &Prepared, log: Log) -> bool
    requires { AreListed prepared.now }
{
    let Prepared { listing, jobs, .. } = prepared;
    match serial_list(alloc, jobs, listing, &log) {
        Some(events) => is_serial(alloc, jobs, log.store, events),
        None => false,
    }
}

/// Whether the run of the log is put in serial order on these jobs.
fn is_log_put_in_order(alloc: Global, prepared: &Prepared) -> bool
    requires { AreListed prepared.now }
{
    match read_log(alloc, LOG, &prepared.jobs, &prepared.root) {
        Ok(log) => is_put_in_order(alloc, prepared, log),
        Err(_) => false,
    }
}

/// Whether it is on the jobs of this build.
fn is_build_put_in_order(alloc: Global, build: Build<'_>) -> bool {
    match note_build(alloc, build, false) {
        Ok(noted) => is_log_put_in_order(alloc, &noted.prepared),
        Err(_) => false,
    }
}

/// Whether it is on the jobs of these texts.
fn is_text_put_in_order(alloc: Global, texts: &Texts<'_>) -> bool {
    match build_of(alloc, texts) {
        Ok(build) => is_build_put_in_order(alloc, build),
        Err(_) => false,
    }
}

#[test]
fn a_run_in_serial_order(rt: HostRuntime) {
    let alloc = rt.alloc();
    assert!(rt; is_text_put_in_order(alloc, &TEXTS));
}
