//! Where a walk along the steps of a trace has come to.
ghost use Rattle.std.specs.Prelude.{◌≡◌, ◌<◌, ◌^◌, [], ℕ, IfOk, get_or, length};
ghost use Rattle.mk_proof.specs.Shapes.{node_of};
ghost use Rattle.mk_sched.specs.Counter.{Moves};
ghost use Rattle.mk_sched.specs.Events.{is_passed, is_running, is_started, phase};
ghost use Rattle.mk_cert.specs.Standing.{moved, phases_of};
ghost use Rattle.mk_cert.specs.Sure.{is_waiting};
ghost use Rattle.mk_cert.specs.Traces.{event_of};
ghost use Rattle.mk_cert.specs.declared.stage.Stage.TheVariants.{Waiting};

use crate::stage::Stage;
use mk_proof::step::Step;
use std::alloc::{AllocError, Global};

/// How far each node has come, and how many run.
#[derive(Drop)]
pub(crate) struct Standing {
    pub(crate) stages: Vec<Stage>,
    pub(crate) running: u32,
}

impl Standing {
    /// So many nodes that wait. The only error is out of memory.
    pub(crate) fn new(alloc: Global, count: u32) -> Result<Standing, AllocError>
        ensures long { IfOk result (λ standing. length standing.stages.items ≡ count) }
        ensures waiting { IfOk result (λ standing. phases_of standing.stages.items ≡ phase []) }
        ensures none { IfOk result (λ standing. standing.running ≡ 0) }
    {
        let stages = vec![in alloc; Stage::Waiting; count as usize]?;
        Ok(Standing { stages, running: 0 })
    }

    /// How far a node has come; one that is no node waits.
    fn stage(&self, n: u32) -> Stage
        ensures { result ≡ get_or self.now.stages.items n Waiting }
    {
        self.stages
            .get(n as usize)
            .copied()
            .unwrap_or(Stage::Waiting)
    }

    /// Whether a node waits.
    pub(crate) fn waits(&self, n: u32) -> bool
        ensures { result ≡ is_waiting (phases_of self.now.stages.items n) }
    {
        match self.stage(n) {
            Stage::Waiting => true,
            Stage::Running | Stage::Skipped | Stage::Ran => false,
        }
    }

    /// Whether a node runs.
    pub(crate) fn runs(&self, n: u32) -> bool
        ensures { result ≡ is_running (phases_of self.now.stages.items n) }
    {
        match self.stage(n) {
            Stage::Running => true,
            Stage::Waiting | Stage::Skipped | Stage::Ran => false,
        }
    }

    /// Whether a node was skipped or has finished.
    pub(crate) fn has_passed(&self, n: u32) -> bool
        ensures { result ≡ is_passed (phases_of self.now.stages.items n) }
    {
        match self.stage(n) {
            Stage::Skipped | Stage::Ran => true,
            Stage::Waiting | Stage::Running => false,
        }
    }

    /// Whether a node runs or has finished.
    pub(crate) fn has_started(&self, n: u32) -> bool
        ensures { result ≡ is_started (phases_of self.now.stages.items n) }
    {
        match self.stage(n) {
            Stage::Running | Stage::Ran => true,
            Stage::Waiting | Stage::Skipped => false,
        }
    }

    /// Makes a step.
    pub(crate) fn make(&mut self, step: Step)
        requires node { node_of step < length self.old.stages.items }
        requires moves { (next : ℕ) × Moves (event_of step).act self.old.running next × (next < 2 ^ 32) }
        ensures phases { phases_of self.new.stages.items ≡ moved (phases_of self.old.stages.items) step }
        ensures long { length self.new.stages.items ≡ length self.old.stages.items }
        ensures moves { Moves (event_of step).act self.old.running self.new.running }
    {
        match step {
            Step::Skip(n) => self.stages[n as usize] = Stage::Skipped,
            Step::Start(n) => {
                self.stages[n as usize] = Stage::Running;
                self.running += 1;
            }
            Step::Finish(n) => {
                self.stages[n as usize] = Stage::Ran;
                self.running -= 1;
            }
        }
    }
}
