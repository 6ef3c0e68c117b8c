//! The nodes of a build, by the texts that spell their names.
ghost use Rattle.std.specs.Prelude.{◌≡◌, ◌<◌, All, IfOk, IfSome, Some};
ghost use Rattle.mk_log.specs.Nodes.{Build, IsSo, node_named};

use mk_foot::object::name_in;
use mk_jobs::jobs::Jobs;
use mk_text::root::Root;
use std::alloc::{AllocError, Global};
use std::marker::Model;

/// How many texts are kept at most.
const SLOTS: usize = 256;

/// A text, and the number of the node whose name it spells, if there is one.
#[derive(Drop)]
struct Spelled {
    text: Vec<u8>,
    node: Option<u32>,
}

/// The nodes of some jobs, by the texts that spell their names below a root. The texts that were asked about lately are kept
/// with their answers, since most events are of a node that had one shortly before.
#[derive(Drop)]
pub(crate) struct Nodes<'a> {
    jobs: &'a Jobs,
    root: &'a Root,
    /// Each text that is kept stands in its slot.
    lately: Vec<Spelled>,
}

impl<'a> Model for Nodes<'a> {
    ghost use Rattle.std.specs.Prelude.{All};
    ghost use Rattle.mk_log.specs.Nodes.{Build, IsSo};

    ghost Value = { Build };

    ghost view = { λ a. record { jobs = a.jobs.now; root = a.root.now } };

    ghost invariant = { λ a. All (IsSo (record { jobs = a.jobs.now; root = a.root.now })) a.lately.items };
}

impl<'a> Nodes<'a> {
    /// The nodes of these jobs, with names below this root. The only error is out of memory.
    pub(crate) fn new(
        alloc: Global,
        jobs: &'a Jobs,
        root: &'a Root,
    ) -> Result<Nodes<'a>, AllocError>
        ensures { IfOk result (λ nodes. nodes ≡ record { jobs = jobs.now; root = root.now }) }
    {
        let lately = empty_slots(alloc)?;
        Ok(Nodes { jobs, root, lately })
    }

    /// The root that their names stand below.
    pub(crate) fn root(&self) -> &'a Root
        ensures { result.now ≡ self.now.root }
    {
        self.root
    }

    /// The number of the node whose name a text spells, if there is one. The only error is out of memory.
    pub(crate) fn number(&mut self, alloc: Global, text: &str) -> Result<Option<u32>, AllocError>
        ensures number { IfOk result (λ node. node ≡ node_named self.old text.now) }
        ensures keeps { self.new ≡ self.old }
    {
        let slot = slot_of(text.as_bytes());
        if let Some(node) = kept(&self.lately, slot, text.as_bytes()) {
            return Ok(node);
        }
        let node = number_of(alloc, self.jobs, self.root, text)?;
        let text = Vec::from_slice(alloc, text.as_bytes())?;
        keep(&mut self.lately, slot, Spelled { text, node });
        Ok(node)
    }
}

/// So many slots without a text. The only error is out of memory.
fn empty_slots(alloc: Global) -> Result<Vec<Spelled>, AllocError>
    ensures { IfOk result (λ slots. (build : Build) → All (IsSo build) slots.items) }
{
    let mut slots = Vec::with_capacity(alloc, SLOTS)?;
    for _ in 0..SLOTS {
        let text = Vec::new(alloc);
        slots.push(Spelled { text, node: None })?;
    }
    Ok(slots)
}

/// The slot of a text. Texts that differ in a byte or two mostly have different ones.
fn slot_of(text: &[u8]) -> usize
    ensures { result < 256 }
{
    let mut sum = 0usize;
    for byte in text {
        sum = sum.wrapping_mul(31).wrapping_add(usize::from(*byte));
    }
    sum % SLOTS
}

/// The answer that is kept for a text, where its slot has it.
fn kept(slots: &[Spelled], slot: usize, text: &[u8]) -> Option<Option<u32>>
    ensures { IfSome result (λ node. (build : Build) → All (IsSo build) slots.now
        → node ≡ node_named build text.now) }
{
    if slot < slots.len() && slots[slot].text.as_slice() == text {
        return Some(slots[slot].node);
    }
    None
}

/// Keeps a text with its answer in a slot, in place of the one that it had.
fn keep(slots: &mut [Spelled], slot: usize, spelled: Spelled)
    ensures { (build : Build) → All (IsSo build) slots.old → IsSo build spelled → All (IsSo build) slots.new }
{
    if slot < slots.len() {
        slots[slot] = spelled;
    }
}

/// The number of the node of these jobs whose name a text spells below a root, if there is one. The only error is out of memory.
fn number_of(alloc: Global, jobs: &Jobs, root: &Root, text: &str) -> Result<Option<u32>, AllocError>
    ensures { IfOk result (λ node.
        node ≡ node_named (record { jobs = jobs.now; root = root.now }) text.now) }
{
    match name_in(alloc, text, root)? {
        Some(name) => Ok(jobs.number(&name)),
        None => Ok(None),
    }
}
