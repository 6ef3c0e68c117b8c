//! Traces: how two nodes that clash come to run at the same time.
ghost use Rattle.std.specs.Prelude.{◌≡◌, ◌↔◌, ◌≤◌, ◌++◌, ◌∷◌, [], IsTrue, OnErr, OnOk};
ghost use Rattle.std.specs.List.Sorted.{IsStrictlySortedBy};
ghost use Rattle.std.specs.Map.{keys_of};
ghost use Rattle.std.specs.Ordering.{nat_cmp};

use crate::certificate::GREATEST_NODE;
use crate::step::Step;
use std::alloc::AllocError;
use std::marker::Model;

/// The greatest time of a node: a plan has no more nodes, so each can have a time of its own.
pub const GREATEST_TIME: u32 = GREATEST_NODE + 1;

/// Two nodes, a path on which they clash, times of nodes, and steps after which both nodes run (profile). The first node is
/// below the second, the path has a byte, the numbers beside the times rise, no node is past 19,999 and no time past 20,000.
#[derive(Debug, Drop)]
pub struct Trace {
    first: u32,
    second: u32,
    path: Vec<u8>,
    times: Vec<(u32, u32)>,
    steps: Vec<Step>,
}

impl Model for Trace {
    ghost use Rattle.mk_proof.specs.Shapes as spec;
    ghost use Rattle.hex.specs.Hex.{IsBytes};

    ghost Value = { spec.Trace };

    ghost view = { λ a. spec.trace_of a.first a.second a.path.items a.times.items a.steps.items };

    ghost invariant = { λ a. IsBytes a.path.items
        × spec.IsShapedTrace (spec.trace_of a.first a.second a.path.items a.times.items a.steps.items) };
}

impl Trace {
    ghost use Rattle.hex.specs.Hex.{IsBytes};
    ghost use Rattle.mk_proof.specs.Shapes.{AreShapedTimes, IsShapedTrace, greatest_node, node_of, trace_of};

    /// The trace of these parts.
    pub fn new(
        first: u32,
        second: u32,
        path: Vec<u8>,
        times: Vec<(u32, u32)>,
        steps: Vec<Step>,
    ) -> Trace
        requires { IsShapedTrace (trace_of first second path.items times.items steps.items) }
        ensures { result ≡ trace_of first second path.items times.items steps.items }
    {
        Trace {
            first,
            second,
            path,
            times,
            steps,
        }
    }

    /// The smaller one of the two nodes.
    pub fn first(&self) -> u32
        ensures { result ≡ self.now.first }
    {
        self.first
    }

    /// The greater one of the two nodes.
    pub fn second(&self) -> u32
        ensures { result ≡ self.now.second }
    {
        self.second
    }

    /// The path on which they clash.
    pub fn path(&self) -> &[u8]
        ensures value { result.now ≡ self.now.path }
        ensures shaped { IsShapedTrace self.now }
        ensures bytes { IsBytes self.now.path }
    {
        &self.path
    }

    /// The times, each beside its node.
    pub fn times(&self) -> &[(u32, u32)]
        ensures { result.now ≡ self.now.times }
    {
        &self.times
    }

    /// The steps.
    pub fn steps(&self) -> &[Step]
        ensures { result.now ≡ self.now.steps }
    {
        &self.steps
    }

    /// Whether a time may stand behind the others, beside this node.
    pub fn takes_time(&self, node: u32, time: u32) -> bool
        ensures { IsTrue result ↔ AreShapedTimes (self.now.times ++ (node, time) ∷ []) }
    {
        node <= GREATEST_NODE && time <= GREATEST_TIME && is_behind(&self.times, node)
    }

    /// Puts a time, beside its node, at the end. The only error is out of memory, and the trace is then as it was.
    pub fn push_time(&mut self, node: u32, time: u32) -> Result<(), AllocError>
        requires { AreShapedTimes (self.old.times ++ (node, time) ∷ []) }
        ensures pushed { OnOk result (self.new ≡ record self.old { times = self.old.times ++ (node, time) ∷ [] }) }
        ensures kept { OnErr result (self.new ≡ self.old) }
    {
        self.times.push((node, time))?;
        Ok(())
    }

    /// Puts a step at the end. The only error is out of memory, and the trace is then as it was.
    pub fn push_step(&mut self, step: Step) -> Result<(), AllocError>
        requires { node_of step ≤ greatest_node }
        ensures pushed { OnOk result (self.new ≡ record self.old { steps = self.old.steps ++ step ∷ [] }) }
        ensures kept { OnErr result (self.new ≡ self.old) }
    {
        self.steps.push(step)?;
        Ok(())
    }
}

/// Whether the nodes of these times, which rise, are all below this one.
fn is_behind(times: &[(u32, u32)], node: u32) -> bool
    requires { IsStrictlySortedBy nat_cmp (keys_of times.now) }
    ensures { IsTrue result ↔ IsStrictlySortedBy nat_cmp (keys_of times.now ++ node ∷ []) }
{
    match times.last() {
        Some((before, _)) => *before < node,
        None => true,
    }
}
