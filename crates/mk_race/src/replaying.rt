//! Whether a log is a run of a build.
ghost use Rattle.mk_name.specs.Gives.{Answers};
ghost use Rattle.mk_race.specs.Played.{IsPlayedOn};

use crate::preparing::Prepared;
use mk_log::reading::read_log;
use mk_name::fault::Halt;
use mk_sched::refusal::Refusal;
use mk_sched::replay::{Replayed, Stopped, replay};
use std::alloc::Global;

/// What a log is to a build.
#[derive(Debug, Drop)]
pub enum Played {
    /// Its events are a run: what they leave, and whether every node has passed.
    Allowed(Replayed),
    /// Its events are no run, or its files are not those of the listing.
    NotAllowed {
        /// The place of the first event that is not allowed, from 1, or 0 for the files.
        place: u64,
        /// Why that event is refused, or the files are.
        refusal: Refusal,
    },
}

/// Replays a log against a build of these jobs: whether its events, from the files that it has, are a run of the jobs, in
/// which at most `limit` nodes run at once and with `tie` files of equal times count as newer. The first fault is that of the log by its
/// lines. The only other error is out of memory.
pub fn replay_log(
    alloc: Global,
    prepared: &Prepared,
    log: &[u8],
    limit: u32,
    tie: bool,
) -> Result<Played, Halt>
    ensures { Answers result (IsPlayedOn prepared.now log.now limit tie) }
{
    let Prepared {
        root,
        listing,
        jobs,
    } = prepared;
    let log = read_log(alloc, log, jobs, root)?;
    match replay(
        alloc,
        jobs,
        listing,
        log.store,
        limit,
        tie,
        log.events.as_slice(),
    ) {
        Ok(replayed) => Ok(Played::Allowed(replayed)),
        Err(Stopped::Refused { place, refusal, .. }) => Ok(Played::NotAllowed { place, refusal }),
        Err(Stopped::Memory) => Err(Halt::Memory),
    }
}
