//! Events of a number that no node has. No log can hold one.
use crate::builds::{name_of, of_build, store_of};
use mk_name::name::Name;
use mk_race::preparing::Prepared;
use mk_sched::contents::Contents;
use mk_sched::event::Event;
use mk_sched::refusal::Refusal;
use mk_sched::replay::{Stopped, replay};
use mk_sched::store::Store;
use std::alloc::{AllocError, Global};

/// The event of this kind of the node 5, at a name where there is one.
fn event(alloc: Global, kind: u32, name: Name) -> Event {
    match kind {
        0 => Event::Skip(5),
        1 => Event::Start(5),
        2 => Event::Finish(5),
        3 => Event::Look(5, name, None),
        4 => Event::Erase(5, name),
        _ => Event::Put(5, name, Contents::from_bytes(Vec::new(alloc)), 9),
    }
}

/// Whether a store has one file, with the time 1.
fn is_kept(store: &Store) -> bool {
    let mut so = store.files().len() == 1;
    for (_, file) in store.files() {
        so &= file.time() == 1;
    }
    so
}

/// Whether a replay stopped at the first event, for the reason that it is of no node, and left the store as it was.
fn is_stopped(stopped: &Stopped) -> bool {
    match stopped {
        Stopped::Refused {
            store,
            place,
            refusal,
        } => *place == 1 && refusal.number() == 12 && is_kept(store),
        Stopped::Memory => false,
    }
}

/// Whether something failed, and this holds of why. It is generic, so that only here both are owned.
fn fails_so<T: Drop, E: Drop, F: FnOnce(&E) -> bool>(answer: Result<T, E>, holds: F) -> bool
    requires { F.IsAlwaysCallable holds }
{
    match answer {
        Ok(_) => false,
        Err(stopped) => holds(&stopped),
    }
}

/// Whether the first of these events is refused.
fn is_of_no_node(alloc: Global, prepared: &Prepared, events: &[Event]) -> bool {
    let Prepared { listing, jobs, .. } = prepared;
    match store_of(alloc, b"\xe9") {
        Ok(store) => {
            fails_so(
                replay(alloc, jobs, listing, store, 1, false, events),
                is_stopped,
            )
        }
        Err(AllocError) => false,
    }
}

/// Whether the event of this kind is refused.
fn kind_is_refused(alloc: Global, prepared: &Prepared, kind: u32) -> bool {
    match name_of(alloc, b"\xe9") {
        Ok(name) => is_of_no_node(alloc, prepared, &[event(alloc, kind, name)]),
        Err(AllocError) => false,
    }
}

fn kinds_are_refused(alloc: Global, prepared: &Prepared) -> bool {
    let mut so = true;
    for kind in 0..6u32 {
        so &= kind_is_refused(alloc, prepared, kind);
    }
    so && Refusal::NoNode.word() == "NoNode"
}

#[test]
fn events_of_no_node(rt: HostRuntime) {
    assert!(rt; of_build(rt.alloc(), kinds_are_refused));
}
