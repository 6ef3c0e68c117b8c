//! Tasks that were read, and what is kept beside them.
ghost use Rattle.std.specs.Prelude.{◌≡◌, ◌∷◌, ◌++◌, [], Ok, IfErr, OnOk, false};
ghost use Rattle.mk_name.specs.Gives.{Halts};
ghost use Rattle.mk_name.specs.Names.{has, same_name};
ghost use Rattle.mk_task.specs.Good.{IsTally};
ghost use Rattle.mk_task.specs.Tasks as spec;

use crate::labels::Labels;
use crate::line::TaskLine;
use crate::needs::needs_of;
use mk_foot::foot_reader::PATH_LIMIT;
use mk_jobs::plan::{EDGE_LIMIT, NODE_LIMIT};
use mk_name::fault::{Fault, Halt, Kind, Source};
use mk_name::name::Name;
use mk_path::path::Path;
use std::alloc::Global;
use std::marker::Model;

/// A task: its label, the numbers of the earlier tasks that it stands behind, and the paths that it reads and writes.
#[derive(Debug, Drop)]
pub(crate) struct Task {
    pub(crate) label: Name,
    pub(crate) needs: Vec<u32>,
    pub(crate) reads: Vec<Path>,
    pub(crate) writes: Vec<Path>,
}

impl Model for Task {
    ghost use Rattle.mk_task.specs.Tasks as spec;

    ghost Value = { spec.Task };

    ghost view = { λ a. record {
      label = a.label;
      needs = a.needs.items;
      reads = a.reads.items;
      writes = a.writes.items;
    } };
}

/// Tasks, and beside them their labels and how many edges and paths they have.
#[derive(Debug, Drop)]
pub(crate) struct Tally {
    pub(crate) tasks: Vec<Task>,
    labels: Labels,
    edges: usize,
    paths: usize,
}

impl Model for Tally {
    ghost use Rattle.mk_task.specs.Good as good;

    ghost Value = { good.Tally };

    ghost view = { λ a. record {
      tasks = a.tasks.items;
      labels = a.labels;
      edges = a.edges;
      paths = a.paths;
    } };
}

impl Tally {
    /// No tasks.
    pub(crate) fn new(alloc: Global) -> Tally
        ensures none { result.tasks ≡ [] }
        ensures tally { IsTally result }
    {
        Tally {
            tasks: Vec::new(alloc),
            labels: Labels::new(alloc),
            edges: 0,
            paths: 0,
        }
    }

    /// Adds the task of the line at a place; or answers the line's fault, and then nothing is known of the tasks. The only
    /// other error is out of memory.
    pub(crate) fn add(&mut self, alloc: Global, line: TaskLine, place: u64) -> Result<(), Halt>
        requires { IsTally self.old }
        ensures tally { OnOk result (IsTally self.new) }
        ensures added { OnOk result (spec.with_line place self.old.tasks line ≡ Ok self.new.tasks) }
        ensures fault { IfErr result (λ halt. Halts halt (spec.with_line place self.old.tasks line)) }
    {
        if has_label(&self.labels, &line.label) {
            let fault = Fault::naming(alloc, Kind::TaskTwice, Source::Tasks, place, line.label)?;
            return Err(Halt::Fault(fault));
        }
        let needs = needs_of(alloc, &self.labels, line.after.as_slice(), place)?;
        let task = Task {
            label: line.label,
            needs,
            reads: line.reads,
            writes: line.writes,
        };
        self.push(alloc, task, place)
    }

    /// Adds the task of the line at a place, whose label is new, where there are then not too many tasks, edges or paths;
    /// else answers that fault, and then nothing is known of the tasks. The only other error is out of memory.
    fn push(&mut self, alloc: Global, task: Task, place: u64) -> Result<(), Halt>
        requires tally { IsTally self.old }
        requires new { has same_name self.old.labels task.label ≡ false }
        ensures tally { OnOk result (IsTally self.new) }
        ensures added { OnOk result (spec.within place (self.old.tasks ++ task ∷ []) ≡ Ok self.new.tasks) }
        ensures fault { IfErr result (λ halt. Halts halt (spec.within place (self.old.tasks ++ task ∷ []))) }
    {
        let edges = self.edges.saturating_add(task.needs.len());
        let reads = self.paths.saturating_add(task.reads.len());
        let paths = reads.saturating_add(task.writes.len());
        if let Some(kind) = limit_passed(self.tasks.len() + 1, edges, paths) {
            return Err(Halt::Fault(Fault::unnamed(alloc, kind, Source::Tasks, place)));
        }
        self.labels.put(alloc, &task.label)?;
        self.tasks.push(task)?;
        self.edges = edges;
        self.paths = paths;
        Ok(())
    }
}

/// Whether a label is one of these.
fn has_label(labels: &Labels, label: &Name) -> bool
    ensures { result ≡ has same_name labels.now label.now }
{
    labels.number(label).is_some()
}

/// The limit that so many tasks, edges and paths pass, if they pass one: 20,000 tasks and 200,000 edges, and then 1,000,000
/// paths.
pub fn limit_passed(tasks: usize, edges: usize, paths: usize) -> Option<Kind>
    ensures { result ≡ spec.limit_passed tasks edges paths }
{
    if tasks > NODE_LIMIT || edges > EDGE_LIMIT {
        return Some(Kind::TooManyTasks);
    }
    if paths > PATH_LIMIT {
        return Some(Kind::TasksTooLarge);
    }
    None
}
