//! States: where a run has come to.
ghost use Rattle.std.specs.Prelude.{◌≡◌, ◌<◌, ◌^◌, ℕ, IfOk, OnOk, length, get_or};
ghost use Rattle.mk_jobs.specs.Jobs.{node_count};
ghost use Rattle.mk_sched.specs.Counter.{Moves};
ghost use Rattle.mk_sched.specs.Standing.{held, CanMove};
ghost use Rattle.mk_sched.specs.Steps.{step_of};
ghost use Rattle.mk_sched.specs.Table.{changed, start_from};
ghost use Rattle.mk_sched.specs.Stored.{store_of};
ghost use Rattle.mk_sched.specs.declared.stage.Stage.TheVariants.{Waiting};

use crate::event::Event;
use crate::stage::Stage;
use crate::store::Store;
use mk_jobs::jobs::Jobs;
use std::alloc::{AllocError, Global};

/// Where a run has come to: what stands at the names, how far each node has come, and how many run.
#[derive(Drop)]
pub(crate) struct State {
    pub(crate) store: Store,
    pub(crate) stages: Vec<Stage>,
    pub(crate) running: u32,
}

impl State {
    /// The state before any event.
    pub(crate) fn new(alloc: Global, jobs: &Jobs, store: Store) -> Result<State, AllocError>
        ensures state { IfOk result
            (λ state. held state ≡ start_from (store_of store)) }
        ensures store { IfOk result (λ state. state.store ≡ store) }
        ensures long { IfOk result (λ state. length state.stages.items ≡ node_count jobs.now) }
        ensures few { IfOk result (λ state. node_count jobs.now < 2 ^ 32) }
        ensures none { IfOk result (λ state. state.running ≡ 0) }
    {
        let stages = vec![in alloc; Stage::Waiting; jobs.count() as usize]?;
        Ok(State {
            store,
            stages,
            running: 0,
        })
    }

    /// How far a node has come; one that is no node waits.
    fn stage(&self, n: u32) -> Stage
        ensures { result ≡ get_or self.now.stages.items n Waiting }
    {
        self.stages
            .get(n as usize)
            .copied()
            .unwrap_or(Stage::Waiting)
    }

    /// Whether a node has passed.
    pub(crate) fn has_passed(&self, n: u32) -> bool
        ensures { result ≡ (held self.now).passed n }
    {
        self.stage(n) == Stage::Passed
    }

    /// Whether a node runs.
    pub(crate) fn runs(&self, n: u32) -> bool
        ensures { result ≡ (held self.now).running n }
    {
        self.stage(n) == Stage::Running
    }

    /// Makes what an event changes.
    pub(crate) fn apply(&mut self, alloc: Global, event: &Event) -> Result<(), AllocError>
        requires node { (step_of event.now).node < length self.old.stages.items }
        requires can_move { CanMove (held self.old) (step_of event.now).node (step_of event.now).act }
        requires moves { (next : ℕ)
            × Moves (step_of event.now).act self.old.running next × (next < 2 ^ 32) }
        ensures state { OnOk result (held self.new
            ≡ changed (held self.old) (step_of event.now).node (step_of event.now).act) }
        ensures long { OnOk result (length self.new.stages.items ≡ length self.old.stages.items) }
        ensures moves { OnOk result (Moves (step_of event.now).act self.old.running self.new.running) }
    {
        match event {
            Event::Skip(n) => self.stages[*n as usize] = Stage::Passed,
            Event::Start(n) => {
                self.stages[*n as usize] = Stage::Running;
                self.running += 1;
            }
            Event::Look(_, _, _) => {}
            Event::Put(_, path, contents, time) => {
                let (path, contents) = (path.copy(alloc)?, contents.copy(alloc)?);
                self.store.put(path, contents, *time)?;
            }
            Event::Erase(_, path) => self.store.erase(path),
            Event::Finish(n) => {
                self.stages[*n as usize] = Stage::Passed;
                self.running -= 1;
            }
        }
        Ok(())
    }
}
