//! Items that were read, and what is kept beside them.
ghost use Rattle.std.specs.Prelude.{◌≡◌, ◌≤◌, ◌∷◌, [], ℕ, Ok, Some, IfErr, IfOk, OnOk, length, if◌then◌else◌};
ghost use Rattle.std.specs.BTreeMap.{get};
ghost use Rattle.std.specs.Cmp.Lexicographic.{slice_cmp};
ghost use Rattle.std.specs.Ordering.{nat_cmp};
ghost use Rattle.mk_name.specs.Gives.{Halts};
ghost use Rattle.mk_name.specs.declared.fault.Halt.TheVariants as halts;
ghost use Rattle.mk_name.specs.Names.{Name};
ghost use Rattle.mk_task.specs.Tasks.{reported};
ghost use Rattle.mk_due.specs.Good.{AreBelow, IsNamed, IsNamedLine, IsNew, IsTally};
ghost use Rattle.mk_due.specs.Awaited as awaited;
ghost use Rattle.mk_due.specs.Items as spec;

use crate::early::first_early;
use crate::item::{DueItem, always_node, due_node, leaf, order_item, task_item};
use crate::line::{Due, DueLine};
use crate::numbers::{numbers_of, others};
use mk_name::fault::{Fault, Halt, Kind, Source};
use mk_name::name::Name;
use mk_task::labels::Labels;
use mk_task::line as tasks;
use mk_task::needs::in_order;
use mk_task::tasks::limit_passed;
use mk_text::listing::Listing;
use std::alloc::{AllocError, Global};
use std::collections::{BTreeMap, BTreeSet};

/// Items, and beside them their names, the numbers of tasks by labels, and how many edges and paths they have.
#[derive(Debug, Drop)]
pub(crate) struct Tally {
    pub(crate) items: Vec<DueItem>,
    names: Labels,
    tasks: BTreeMap<Name, u32>,
    edges: usize,
    paths: usize,
}

impl Tally {
    /// No items.
    pub(crate) fn new(alloc: Global) -> Tally
        ensures none { result.items.items ≡ [] }
        ensures tally { IsTally result }
    {
        Tally {
            items: Vec::new(alloc),
            names: Labels::new(alloc),
            tasks: BTreeMap::new(alloc),
            edges: 0,
            paths: 0,
        }
    }

    /// Adds the items of the line at a place; or answers the line's fault, and then nothing is known of the items. The only
    /// other error is out of memory.
    pub(crate) fn add(
        &mut self,
        alloc: Global,
        line: DueLine,
        place: u64,
        listing: &Listing,
    ) -> Result<(), Halt>
        requires tally { IsTally self.old }
        requires named { IsNamedLine line.task }
        ensures tally { OnOk result (IsTally self.new) }
        ensures added { OnOk result (spec.with_line listing.now place self.old.items.items line ≡ Ok self.new.items.items) }
        ensures fault { IfErr result (λ halt. Halts halt (spec.with_line listing.now place self.old.items.items line)) }
    {
        let DueLine { task, due } = line;
        if self.task_number(&task.label).is_some() {
            return Err(twice(alloc, task.label, place)?);
        }
        let waits = self.waits_of(alloc, task.after.as_slice(), place)?;
        match due {
            Some(due) => self.add_awaiting(alloc, task, due, waits, place, listing),
            None => self.add_always(alloc, task, waits, place),
        }
    }

    /// The number of the task with a label.
    fn task_number(&self, label: &Name) -> Option<u32>
        requires { IsTally self.now }
        ensures { result ≡ spec.task_number self.now.items.items label.now }
    {
        self.tasks.get(label).copied()
    }

    /// The numbers of the tasks of some labels, rising, each once; or the fault of the line at a place, with the first label
    /// that is no task's. The only other error is out of memory.
    fn waits_of(&self, alloc: Global, after: &[Name], place: u64) -> Result<Vec<u32>, Halt>
        requires { IsTally self.now }
        ensures waits { IfOk result (λ waits.
            spec.waits_among place self.now.items.items [] after.now ≡ Ok waits.items) }
        ensures fault { IfErr result (λ halt.
            Halts halt (spec.waits_among place self.now.items.items [] after.now)) }
    {
        let mut waits = BTreeSet::new(alloc);
        for label in after {
            match self.task_number(label) {
                Some(number) => waits.insert(number)?,
                None => return Err(unknown(alloc, label, place)?),
            };
        }
        Ok(in_order(alloc, &waits)?)
    }

    /// Adds a task that always runs, behind these numbers; or answers the line's fault, and then nothing is known of the
    /// items. The only other error is out of memory.
    fn add_always(
        &mut self,
        alloc: Global,
        line: tasks::TaskLine,
        waits: Vec<u32>,
        place: u64,
    ) -> Result<(), Halt>
        requires tally { IsTally self.old }
        requires named { IsNamedLine line }
        requires new { IsNew self.old.items.items line.label }
        requires below { AreBelow (length self.old.items.items) waits.items }
        ensures tally { OnOk result (IsTally self.new) }
        ensures added { OnOk result (spec.with_item place self.old.items.items
            (spec.task_item place line (spec.always_node line.label waits.items)) ≡ Ok self.new.items.items) }
        ensures fault { IfErr result (λ halt. Halts halt (spec.with_item place self.old.items.items
            (spec.task_item place line (spec.always_node line.label waits.items)))) }
    {
        let node = always_node(alloc, &line.label, waits)?;
        self.push(alloc, task_item(place, line, node), place)
    }

    /// Adds a task that makes a file, if it waits for each task that makes what it needs; or answers the line's fault, and then
    /// nothing is known of the items. The only other error is out of memory.
    fn add_awaiting(
        &mut self,
        alloc: Global,
        line: tasks::TaskLine,
        due: Due,
        waits: Vec<u32>,
        place: u64,
        listing: &Listing,
    ) -> Result<(), Halt>
        requires tally { IsTally self.old }
        requires named { IsNamedLine line }
        requires new { IsNew self.old.items.items line.label }
        requires below { AreBelow (length self.old.items.items) waits.items }
        ensures tally { OnOk result (IsTally self.new) }
        ensures added { OnOk result (spec.with_task listing.now place self.old.items.items line (Some due) waits.items ≡ Ok self.new.items.items) }
        ensures fault { IfErr result (λ halt.
            Halts halt (spec.with_task listing.now place self.old.items.items line (Some due) waits.items)) }
    {
        if let Some(name) = self.first_early(alloc, &due, &waits)? {
            return Err(not_awaited(alloc, name, place)?);
        }
        self.add_due(alloc, line, due, waits, place, listing)
    }

    /// The first file that a task needs whose task it does not wait for, behind these numbers. The only error is out of memory.
    fn first_early(
        &self,
        alloc: Global,
        due: &Due,
        waits: &[u32],
    ) -> Result<Option<Name>, AllocError>
        requires tally { IsTally self.now }
        requires below { AreBelow (length self.now.items.items) waits.now }
        ensures { IfOk result (λ found. found
            ≡ awaited.first_early (spec.nodes_of self.now.items.items) waits.now due.now.needs) }
    {
        first_early(
            alloc,
            self.items.as_slice(),
            &self.names,
            due.needs.as_slice(),
            waits,
        )
    }

    /// Adds a task that makes a file, with its leaves and its order node, where it waits for these numbers; or answers the
    /// line's fault, and then nothing is known of the items. The only other error is out of memory.
    fn add_due(
        &mut self,
        alloc: Global,
        line: tasks::TaskLine,
        due: Due,
        waits: Vec<u32>,
        place: u64,
        listing: &Listing,
    ) -> Result<(), Halt>
        requires tally { IsTally self.old }
        requires named { IsNamedLine line }
        requires new { IsNew self.old.items.items line.label }
        requires below { AreBelow (length self.old.items.items) waits.items }
        ensures tally { OnOk result (IsTally self.new) }
        ensures added { OnOk result (spec.with_items place self.old.items.items
            (spec.items_of_line listing.now place self.old.items.items line (Some due) waits.items) ≡ Ok self.new.items.items) }
        ensures fault { IfErr result (λ halt.
            Halts halt (spec.with_items place self.old.items.items
            (spec.items_of_line listing.now place self.old.items.items line (Some due) waits.items))) }
    {
        let Due { makes, needs } = due;
        self.add_leaves(alloc, &line.label, needs.as_slice(), place, listing)?;
        let needs = numbers_of(alloc, &self.names, needs.as_slice())?;
        let others = others(alloc, &needs, waits.as_slice())?;
        let needs = in_order(alloc, &needs)?;
        self.add_behind(alloc, line, makes, needs, others, place, listing)
    }

    /// Adds a leaf for each of some names that no item has; or answers the line's fault, and then nothing is known of the
    /// items. The only other error is out of memory.
    fn add_leaves(
        &mut self,
        alloc: Global,
        label: &Name,
        needs: &[Name],
        place: u64,
        listing: &Listing,
    ) -> Result<(), Halt>
        requires tally { IsTally self.old }
        requires new { IsNew self.old.items.items label.now }
        ensures tally { OnOk result (IsTally self.new) }
        ensures new { OnOk result (IsNew self.new.items.items label.now) }
        ensures more { OnOk result (length self.old.items.items ≤ length self.new.items.items) }
        ensures added { OnOk result (spec.with_items place self.old.items.items
            (spec.leaves_of listing.now place label.now self.old.items.items needs.now) ≡ Ok self.new.items.items) }
        ensures fault { IfErr result (λ halt.
            Halts halt (spec.with_items place self.old.items.items
            (spec.leaves_of listing.now place label.now self.old.items.items needs.now))) }
    {
        for name in needs {
            self.add_leaf(alloc, label, name, place, listing)?;
        }
        Ok(())
    }

    /// Adds a leaf for a name, unless an item has it; or answers the line's fault, and then nothing is known of the items.
    /// The only other error is out of memory.
    fn add_leaf(
        &mut self,
        alloc: Global,
        label: &Name,
        name: &Name,
        place: u64,
        listing: &Listing,
    ) -> Result<(), Halt>
        requires tally { IsTally self.old }
        requires new { IsNew self.old.items.items label.now }
        ensures tally { OnOk result (IsTally self.new) }
        ensures new { OnOk result (IsNew self.new.items.items label.now) }
        ensures more { OnOk result (length self.old.items.items ≤ length self.new.items.items) }
        ensures added { OnOk result (spec.with_items place self.old.items.items
            (spec.leaves_of listing.now place label.now self.old.items.items (name.now ∷ [])) ≡ Ok self.new.items.items) }
        ensures fault { IfErr result (λ halt.
            Halts halt (spec.with_items place self.old.items.items
            (spec.leaves_of listing.now place label.now self.old.items.items (name.now ∷ [])))) }
    {
        if self.names.number(name).is_some() {
            return Ok(());
        }
        let leaf = leaf(alloc, listing, place, label, name)?;
        self.push(alloc, leaf, place)
    }

    /// Adds a task that makes a file, behind these numbers that it needs, and behind an order node where it waits for others;
    /// or answers the line's fault, and then nothing is known of the items. The only other error is out of memory.
    fn add_behind(
        &mut self,
        alloc: Global,
        line: tasks::TaskLine,
        makes: Name,
        mut needs: Vec<u32>,
        others: Vec<u32>,
        place: u64,
        listing: &Listing,
    ) -> Result<(), Halt>
        requires tally { IsTally self.old }
        requires named { IsNamedLine line }
        requires new { IsNew self.old.items.items line.label }
        requires below { AreBelow (length self.old.items.items) needs.items }
        requires others_below { AreBelow (length self.old.items.items) others.items }
        ensures tally { OnOk result (IsTally self.new) }
        ensures added { OnOk result (spec.with_items place self.old.items.items
            (spec.behind_needs listing.now place line makes (length self.old.items.items) needs.items others.items) ≡ Ok self.new.items.items) }
        ensures fault { IfErr result (λ halt.
            Halts halt (spec.with_items place self.old.items.items
            (spec.behind_needs listing.now place line makes (length self.old.items.items) needs.items others.items))) }
    {
        if others.is_empty() {
            let node = due_node(listing, makes, needs);
            return self.push(alloc, task_item(place, line, node), place);
        }
        needs.push(self.items.len() as u32)?;
        let order = order_item(alloc, place, &line.label, others)?;
        self.push(alloc, order, place)?;
        let node = due_node(listing, makes, needs);
        self.push(alloc, task_item(place, line, node), place)
    }

    /// Adds an item of the line at a place, whose label is no task's yet; or answers the line's fault: an item has its name,
    /// or there are then too many nodes, edges or paths. Then nothing is known of the items. The only other error is out of
    /// memory.
    fn push(&mut self, alloc: Global, item: DueItem, place: u64) -> Result<(), Halt>
        requires tally { IsTally self.old }
        requires named { IsNamed item }
        requires new { IsNew self.old.items.items item.label }
        requires below { AreBelow (length self.old.items.items) item.node.prerequisites }
        ensures tally { OnOk result (IsTally self.new) }
        ensures added { OnOk result (spec.with_item place self.old.items.items item ≡ Ok self.new.items.items) }
        ensures fault { IfErr result (λ halt. Halts halt (spec.with_item place self.old.items.items item)) }
    {
        if self.names.number(item.name()).is_some() {
            return Err(twice(alloc, item.name().copy(alloc)?, place)?);
        }
        let edges = self.edges.saturating_add(item.needs());
        let reads = self.paths.saturating_add(item.reads.len());
        let paths = reads.saturating_add(item.writes.len());
        if let Some(kind) = limit_passed(self.items.len() + 1, edges, paths) {
            return Err(Halt::Fault(Fault::unnamed(alloc, kind, Source::Tasks, place)));
        }
        note_task(alloc, &mut self.tasks, &item, self.items.len() as u32)?;
        self.names.put(alloc, item.name())?;
        self.items.push(item)?;
        self.edges = edges;
        self.paths = paths;
        Ok(())
    }
}

/// Notes the number of an item under its label, if it is a task.
fn note_task(
    alloc: Global,
    tasks: &mut BTreeMap<Name, u32>,
    item: &DueItem,
    number: u32,
) -> Result<(), AllocError>
    ensures { OnOk result ((label : Name) → get (slice_cmp nat_cmp) tasks.new label
        ≡ (if spec.is_task label item.now then Some number else get (slice_cmp nat_cmp) tasks.old label)) }
{
    if item.is_task() {
        tasks.insert(item.label.copy(alloc)?, number)?;
    }
    Ok(())
}

/// The fault of the line at a place that says a task or a file a second time.
fn twice(alloc: Global, name: Name, place: u64) -> Result<Halt, AllocError>
    ensures { IfOk result (λ halt. halt
        ≡ halts.Fault (reported Kind.TaskTwice place (name ∷ []))) }
{
    Ok(Halt::Fault(Fault::naming(alloc, Kind::TaskTwice, Source::Tasks, place, name)?))
}

/// The fault of the line at a place that needs a file for whose task it does not wait.
fn not_awaited(alloc: Global, name: Name, place: u64) -> Result<Halt, AllocError>
    ensures { IfOk result (λ halt. halt
        ≡ halts.Fault (reported Kind.NotAwaited place (name ∷ []))) }
{
    Ok(Halt::Fault(Fault::naming(alloc, Kind::NotAwaited, Source::Tasks, place, name)?))
}

/// The fault of the line at a place, with a label that is no task's.
fn unknown(alloc: Global, label: &Name, place: u64) -> Result<Halt, AllocError>
    ensures { IfOk result (λ halt. halt
        ≡ halts.Fault (reported Kind.UnknownTask place (label.now ∷ []))) }
{
    let name = label.copy(alloc)?;
    Ok(Halt::Fault(Fault::naming(alloc, Kind::UnknownTask, Source::Tasks, place, name)?))
}
