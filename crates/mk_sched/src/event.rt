//! Events: what the nodes of a build do, one atomic step at a time.
ghost use Rattle.std.specs.Prelude.{◌≡◌, IfOk};
ghost use Rattle.mk_sched.specs.Steps.{step_of, steps_at};

use crate::contents::Contents;
use mk_name::name::Name;
use std::alloc::{AllocError, Global};

/// One atomic step of one node, which is named by its number in the plan (profile).
#[derive(Debug, Drop)]
pub enum Event {
    /// The node passes without its recipe.
    Skip(u32),
    /// The node's recipe starts.
    Start(u32),
    /// The recipe looks at a file, and sees what it holds, or that it is absent.
    Look(u32, Name, Option<Contents>),
    /// The recipe puts a file, which then has this time.
    Put(u32, Name, Contents, u64),
    /// The recipe erases a file, or finds it absent.
    Erase(u32, Name),
    /// The recipe finishes, and the node passes.
    Finish(u32),
}

impl Event {
    /// The number of the node whose step it is.
    pub fn node(&self) -> u32
        ensures { result ≡ (step_of self.now).node }
    {
        match self {
            Event::Skip(node) | Event::Start(node) | Event::Finish(node) => *node,
            Event::Look(node, _path, _seen) => *node,
            Event::Put(node, _path, _contents, _time) => *node,
            Event::Erase(node, _path) => *node,
        }
    }

    /// An equal event. The only error is out of memory.
    pub fn copy(&self, alloc: Global) -> Result<Event, AllocError>
        ensures { IfOk result (λ event. event ≡ self.now) }
    {
        Ok(match self {
            Event::Skip(node) => Event::Skip(*node),
            Event::Start(node) => Event::Start(*node),
            Event::Look(node, path, seen) => {
                Event::Look(*node, path.copy(alloc)?, copy_seen(alloc, seen)?)
            }
            Event::Put(node, path, contents, time) => {
                Event::Put(*node, path.copy(alloc)?, contents.copy(alloc)?, *time)
            }
            Event::Erase(node, path) => Event::Erase(*node, path.copy(alloc)?),
            Event::Finish(node) => Event::Finish(*node),
        })
    }

    /// The same event; a put then has this time.
    pub fn at_time(self, time: u64) -> Event
        ensures { step_of result ≡ steps_at time (step_of self) }
    {
        match self {
            Event::Put(node, path, contents, _old) => Event::Put(node, path, contents, time),
            other => other,
        }
    }
}

/// What a look saw, once more.
fn copy_seen(alloc: Global, seen: &Option<Contents>) -> Result<Option<Contents>, AllocError>
    ensures { IfOk result (λ copy. copy ≡ seen.now) }
{
    match seen {
        Some(contents) => Ok(Some(contents.copy(alloc)?)),
        None => Ok(None),
    }
}

/// Equal events. The only error is out of memory.
pub(crate) fn copies(alloc: Global, events: &[Event]) -> Result<Vec<Event>, AllocError>
    ensures { IfOk result (λ copies. copies.items ≡ events.now) }
{
    let mut copies = Vec::with_capacity(alloc, events.len())?;
    for event in events {
        copies.push(event.copy(alloc)?)?;
    }
    Ok(copies)
}
