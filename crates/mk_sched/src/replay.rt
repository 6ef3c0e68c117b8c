//! Replays: whether a list of events is a run, and what it leaves.
ghost use Rattle.std.specs.Prelude.{◌≡◌, ◌⊎◌, ◌↔◌, ◌<◌, true, ℕ, IsTrue, IfOk, IfErr, length};
ghost use Rattle.mk_name.specs.Names.{has, same_name};
ghost use Rattle.mk_sched.specs.Replayed.{IsReplayed};
ghost use Rattle.mk_sched.specs.Standing.{held};
ghost use Rattle.mk_sched.specs.Stopped.{IsStopped};
ghost use Rattle.mk_sched.specs.declared.replay.Stopped.TheVariants.{Memory};

use crate::event::Event;
use crate::judge::refusal;
use crate::refusal::Refusal;
use crate::stage::Stage;
use crate::state::State;
use crate::store::Store;
use mk_jobs::jobs::Jobs;
use mk_text::listing::Listing;
use std::alloc::{AllocError, Global};

/// What a run leaves.
#[derive(Debug, Drop)]
pub struct Replayed {
    /// The files that its events leave.
    pub store: Store,
    /// Whether every node has passed.
    pub complete: bool,
}

/// Why a replay stopped.
#[derive(Debug, Drop)]
pub enum Stopped {
    /// Memory ran out.
    Memory,
    /// An event is not allowed, or the store does not agree with the listing.
    Refused {
        /// The store that the events before the refused one left.
        store: Store,
        /// The place of the refused event from 1, or 0 for the store.
        place: u64,
        /// Why it is refused.
        refusal: Refusal,
    },
}

impl From<AllocError> for Stopped {
    ghost from_gives = { λ _ stopped. stopped ≡ Memory };

    fn from(_error: AllocError) -> Stopped {
        Stopped::Memory
    }
}

/// Whether every node has passed.
fn is_complete(state: &State) -> bool
    ensures { IsTrue result
        ↔ ((n : ℕ) → n < length state.now.stages.items → (held state.now).passed n ≡ true) }
{
    for stage in &state.stages {
        if *stage != Stage::Passed {
            return false;
        }
    }
    true
}

/// Replays events from a store: whether they are a run of the jobs, in which at most `limit` nodes run at once and with
/// `tie` files of equal times count as newer, and what they leave (profile).
///
/// A store whose names are not exactly those of the listing is `StoreNotListing` at place 0. The first event that is not
/// allowed is refused at its place from 1, with the first refusal of its list that holds, and the store as it stood
/// before. After out of memory nothing comes back.
pub fn replay(
    alloc: Global,
    jobs: &Jobs,
    listing: &Listing,
    store: Store,
    limit: u32,
    tie: bool,
    events: &[Event],
) -> Result<Replayed, Stopped>
    ensures ok { IfOk result (λ replayed.
        IsReplayed jobs.now (has same_name listing.now) tie limit store events.now
        replayed.store replayed.complete) }
    ensures err { IfErr result (λ stopped.
        IsStopped jobs.now (has same_name listing.now) tie limit store events.now stopped) }
{
    if !store.agrees(listing) {
        let refusal = Refusal::StoreNotListing;
        return Err(Stopped::Refused {
            store,
            place: 0,
            refusal,
        });
    }
    let mut state = State::new(alloc, jobs, store)?;
    let mut place = 0;
    for event in events {
        place += 1;
        if let Some(refusal) = refusal(&state, jobs, tie, limit, event) {
            let store = state.store;
            return Err(Stopped::Refused {
                store,
                place,
                refusal,
            });
        }
        state.apply(alloc, event)?;
    }
    let complete = is_complete(&state);
    let store = state.store;
    Ok(Replayed { store, complete })
}
