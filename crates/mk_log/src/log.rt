//! Logs: what a store held, and what then happened.

use mk_sched::event::Event;
use mk_sched::store::Store;
use std::marker::Model;

/// A log: the files that were there, and the events in the order in which they happened.
#[derive(Debug, Drop)]
pub struct Log {
    /// The opening store.
    pub store: Store,
    /// The events, the first one first.
    pub events: Vec<Event>,
}

impl Model for Log {
    ghost use Rattle.mk_log.specs.Logs as spec;

    ghost Value = { spec.Log };

    ghost view = { λ a. record { store = a.store; events = a.events.items } };
}
