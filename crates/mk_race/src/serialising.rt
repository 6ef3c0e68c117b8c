//! A log of a build in serial order.
ghost use Rattle.std.specs.Prelude.{ℕ, ◌≡◌, ◌<◌, List, IfOk, Ok};
ghost use Rattle.mk_name.specs.Gives.{Answers};
ghost use Rattle.mk_name.specs.Names.{Name as SpecName, has, same_name};
ghost use Rattle.mk_jobs.specs.Jobs.{IsRaceFree, is_listed, name_of, node_count};
ghost use Rattle.mk_sched.specs.Serialising.{IsWholeRun};
ghost use Rattle.mk_sched.specs.Steps.{past_of};
ghost use Rattle.mk_sched.specs.Stored.{store_of};
ghost use Rattle.mk_sched.specs.Stores.{AgreesWith};
ghost use Rattle.mk_decide.specs.Pairs.{HasFewPairs};
ghost use Rattle.mk_race.specs.Serialised as spec;
ghost use Rattle.mk_race.specs.Serialised.{IsLawful, IsLawfulBuild, IsLawfulOn, IsLogOrder, IsOrderOn, IsSerialisedOn, IsCompleteLog};
ghost use Rattle.mk_race.specs.Stages.{AreListed, IsPrepared, Texts};

use crate::preparing::Prepared;
use mk_decide::decision::{Verdict, decide};
use mk_jobs::jobs::Jobs;
use mk_log::log::Log;
use mk_log::reading::read_log;
use mk_name::fault::Halt;
use mk_proof::trace::Trace;
use mk_sched::refusal::Refusal;
use mk_sched::replay::{Stopped, replay};
use mk_sched::serialising::{has_room, into_serial_order};
use mk_sched::store::copy_store;
use mk_text::listing::Listing;
use std::alloc::{AllocError, Global};

/// What comes of a log that is to be put in serial order.
#[derive(Debug, Drop)]
pub enum Ordered {
    /// Its events are a complete run of race-free jobs. The new log has the same files, and the events node after node, in
    /// rising number, with new times for their puts.
    Serial(Log),
    /// Its events are no run, or its files are not those of the listing.
    NotAllowed {
        /// The place of the first event that is not allowed, from 1, or 0 for the files.
        place: u64,
        /// Why that event is refused, or the files are.
        refusal: Refusal,
    },
    /// Its events are a run, in which not every node has passed.
    NotComplete,
    /// Its events are a complete run, but two nodes race. The trace is that of the least race, as
    /// [`decide`](mk_decide::decision::decide) gives it.
    Race(Trace),
    /// Its events are a complete run of race-free jobs, but the time of one of its files leaves fewer later ones than there
    /// are events.
    NoRoom,
}

/// The jobs of a build, and what comes of its log.
#[derive(Debug, Drop)]
pub struct Serialised {
    /// The jobs, by whose numbers the events go.
    pub jobs: Jobs,
    /// What comes of the log.
    pub order: Ordered,
}

/// Puts the log of a build in serial order: the same files, and then node after node, in rising number, all that the node
/// did, as it did it. Puts get new times: the k-th of the whole log has the greatest time of the files plus k (zero where
/// there are none). What is put in order is a complete run too, in which one node runs at a time; in it each node does the
/// same as in the log, the same nodes start, and it leaves the same bytes at each name.
///
/// The log has to be a run of the jobs, in which at most `limit` nodes run at once and with `tie` files of equal times
/// count as newer; then it has to be complete; then not too many pairs of nodes may clash; then the jobs have to be
/// race-free; then there has to be room for the new times. The first of these that fails is answered.
///
/// The first fault is answered: that of the log by its lines, and for a complete run `TooManyPairs` in the jobs, at place 0, where more than
/// 1,000,000 pairs of nodes clash. The only other error is out of memory.
pub fn serialise_log(
    alloc: Global,
    prepared: Prepared,
    log: &[u8],
    limit: u32,
    tie: bool,
) -> Result<Serialised, Halt>
    requires { AreListed prepared }
    ensures answer { Answers result (IsSerialisedOn prepared log.now limit tie) }
    ensures jobs { IfOk result (λ given. given.jobs ≡ prepared.jobs) }
    // What is put in serial order is the same build, by the law of serial lists, and of any texts that mean it.
    ensures lawful { IfOk result (λ given. IsLawfulOn prepared log.now tie given.order) }
    ensures law { IfOk result (λ given. (texts : Texts) (footprints : List ℕ)
        → IsPrepared texts footprints (Ok prepared) → IsLawfulBuild texts footprints log.now tie given) }
{
    let order = order_on(alloc, &prepared, log, limit, tie)?;
    Ok(Serialised {
        jobs: prepared.jobs,
        order,
    })
}

/// What comes of a log on the jobs of a build, which are listed where the listing has their names.
fn order_on(
    alloc: Global,
    prepared: &Prepared,
    log: &[u8],
    limit: u32,
    tie: bool,
) -> Result<Ordered, Halt>
    requires { AreListed prepared.now }
    ensures answer { Answers result (IsOrderOn prepared.now log.now limit tie) }
    ensures law { IfOk result (IsLawfulOn prepared.now log.now tie) }
{
    let Prepared {
        root,
        listing,
        jobs,
    } = prepared;
    let log = read_log(alloc, log, jobs, root)?;
    order_of(alloc, jobs, listing, log, limit, tie)
}

/// What comes of a log that was read.
fn order_of(
    alloc: Global,
    jobs: &Jobs,
    listing: &Listing,
    log: Log,
    limit: u32,
    tie: bool,
) -> Result<Ordered, Halt>
    requires { (n : ℕ) → n < node_count jobs.now
        → is_listed jobs.now n ≡ has same_name listing.now (name_of jobs.now n) }
    ensures answer { Answers result (IsLogOrder jobs.now listing.now limit tie log) }
    ensures law { IfOk result (IsLawful jobs.now tie log) }
{
    let store = copy_store(alloc, &log.store)?;
    match replay(
        alloc,
        jobs,
        listing,
        store,
        limit,
        tie,
        log.events.as_slice(),
    ) {
        Ok(replayed) if replayed.complete => whole_order(alloc, jobs, log, tie),
        Ok(_) => Ok(Ordered::NotComplete),
        Err(Stopped::Refused { place, refusal, .. }) => Ok(Ordered::NotAllowed { place, refusal }),
        Err(Stopped::Memory) => Err(Halt::Memory),
    }
}

/// What comes of a log that is a complete run.
fn whole_order(alloc: Global, jobs: &Jobs, log: Log, tie: bool) -> Result<Ordered, Halt>
    requires whole { IsWholeRun jobs.now tie (store_of log.store) (past_of log.events) }
    requires agrees { AgreesWith jobs.now (store_of log.store) }
    ensures answer { (listed : List SpecName) (limit : ℕ) → IsCompleteLog jobs.now listed limit tie log
        → Answers result (IsLogOrder jobs.now listed limit tie log) }
    ensures law { IfOk result (IsLawful jobs.now tie log) }
{
    match decide(alloc, jobs)? {
        Verdict::Race(trace) => Ok(Ordered::Race(trace)),
        Verdict::Safe(_) => free_order(alloc, jobs, log, tie),
    }
}

/// What comes of a log that is a complete run of race-free jobs.
fn free_order(alloc: Global, jobs: &Jobs, log: Log, tie: bool) -> Result<Ordered, Halt>
    requires whole { IsWholeRun jobs.now tie (store_of log.store) (past_of log.events) }
    requires agrees { AgreesWith jobs.now (store_of log.store) }
    requires few { HasFewPairs jobs.now }
    requires race_free { IsRaceFree jobs.now }
    ensures answer { (listed : List SpecName) (limit : ℕ) → IsCompleteLog jobs.now listed limit tie log
        → Answers result (IsLogOrder jobs.now listed limit tie log) }
    ensures law { IfOk result (IsLawful jobs.now tie log) }
{
    let Log { store, events } = log;
    if !has_room(&store, events.len()) {
        return Ok(Ordered::NoRoom);
    }
    let events = into_serial_order(alloc, jobs, &store, tie, events)?;
    Ok(Ordered::Serial(Log { store, events }))
}
