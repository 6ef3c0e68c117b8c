//! Proofs of which some lines have come.
ghost use Rattle.std.specs.Prelude.{◌≡◌, ◌↔◌, ◌++◌, ◌∷◌, [], IfNone, IfOk, IfSome, IsTrue};
ghost use Rattle.mk_proof.specs.Drafts.{Adds, AreNodes, IsDraft};
ghost use Rattle.mk_proof.specs.ProofText.{IsShapedProof, proof_lines, words_of};
ghost use Rattle.mk_proof.specs.Shapes.{AreShapedTimes, IsShapedTrace};
ghost use Rattle.mk_proof.specs.declared.draft.Draft.TheVariants.{Chains, Steps};

use crate::certificate::Certificate;
use crate::line::{count_in, nodes_in, path_in, step_in, time_in};
use crate::number::numbers;
use crate::proof::Proof;
use crate::trace::Trace;
use std::alloc::{AllocError, Global};

/// What the lines of a proof have said so far.
#[derive(Debug, Drop)]
pub(crate) enum Draft {
    /// No line has come.
    Empty,
    /// The number of chains, and those that have come.
    Chains(usize, Certificate),
    /// The two nodes of a trace.
    Nodes(u32, u32),
    /// A trace, and whether its last line has come.
    Steps(Trace, bool),
}

impl Draft {
    ghost use Rattle.mk_proof.specs.Drafts.{lines_of};
    ghost use Rattle.mk_proof.specs.declared.draft.Draft.TheVariants.{Empty, Nodes};
    ghost use Rattle.mk_proof.specs.declared.proof.Proof.{Proof};

    /// Takes a line, if it fits behind those that have come. The only error is out of memory.
    pub(crate) fn add(&mut self, alloc: Global, line: &[u8]) -> Result<bool, AllocError>
        requires { IsDraft self.old }
        ensures { IfOk result (λ added. Adds self.old (words_of line.now) added self.new) }
    {
        match self {
            Draft::Empty => Ok(self.begin(alloc, line)),
            Draft::Chains(count, certificate) => add_chain(alloc, *count, certificate, line),
            Draft::Nodes(first, second) => {
                let (first, second) = (*first, *second);
                self.add_path(alloc, first, second, line)
            }
            Draft::Steps(trace, is_whole) => add_to_trace(trace, is_whole, line),
        }
    }

    /// Takes a first line.
    fn begin(&mut self, alloc: Global, line: &[u8]) -> bool
        ensures { Adds Empty (words_of line.now) result self.new }
    {
        if let Some(count) = count_in(line) {
            *self = Draft::Chains(count, Certificate::new(alloc));
            return true;
        }
        if let Some((first, second)) = nodes_in(line) {
            *self = Draft::Nodes(first, second);
            return true;
        }
        false
    }

    /// Takes the second line of a trace of these nodes. The only error is out of memory.
    fn add_path(
        &mut self,
        alloc: Global,
        first: u32,
        second: u32,
        line: &[u8],
    ) -> Result<bool, AllocError>
        requires { AreNodes (first, second) }
        ensures { IfOk result (λ added. Adds (Nodes first second) (words_of line.now) added self.new) }
    {
        let Some(path) = path_in(alloc, line)? else {
            return Ok(false);
        };
        let trace = Trace::new(first, second, path, Vec::new(alloc), Vec::new(alloc));
        *self = Draft::Steps(trace, false);
        Ok(true)
    }

    /// The proof, if all its lines have come.
    pub(crate) fn finish(self) -> Option<Proof>
        requires { IsDraft self }
        ensures whole { IfSome result (λ proof. IsShapedProof proof × (proof_lines proof ≡ lines_of self)) }
        ensures none { IfNone result ((proof : Proof) → IsShapedProof proof → ¬ (proof_lines proof ≡ lines_of self)) }
    {
        match self {
            Draft::Chains(count, certificate) => {
                if certificate.count() == count {
                    Some(Proof::Certificate(certificate))
                } else {
                    None
                }
            }
            Draft::Steps(trace, is_whole) => {
                if is_whole {
                    Some(Proof::Trace(trace))
                } else {
                    None
                }
            }
            Draft::Empty | Draft::Nodes(_, _) => None,
        }
    }
}

/// Takes a line of a certificate behind its first. The only error is out of memory.
fn add_chain(
    alloc: Global,
    count: usize,
    certificate: &mut Certificate,
    line: &[u8],
) -> Result<bool, AllocError>
    requires { IsDraft (Chains count certificate.old) }
    ensures { IfOk result (λ added.
        Adds (Chains count certificate.old) (words_of line.now) added (Chains count certificate.new)) }
{
    if certificate.count() == count {
        return Ok(false);
    }
    let Some(chain) = numbers(alloc, line)? else {
        return Ok(false);
    };
    if !certificate.takes(&chain) {
        return Ok(false);
    }
    certificate.push(&chain)?;
    Ok(true)
}

/// Takes a line of a trace behind its second. The only error is out of memory.
fn add_to_trace(trace: &mut Trace, is_whole: &mut bool, line: &[u8]) -> Result<bool, AllocError>
    requires { IsDraft (Steps trace.old is_whole.old) }
    ensures { IfOk result (λ added.
        Adds (Steps trace.old is_whole.old) (words_of line.now) added (Steps trace.new is_whole.new)) }
{
    if *is_whole {
        return Ok(false);
    }
    if line == b"end".as_slice() {
        *is_whole = true;
        return Ok(true);
    }
    if let Some((node, time)) = time_in(line) {
        let added = add_time(trace, node, time)?;
        return Ok(added);
    }
    let Some(step) = step_in(line) else {
        return Ok(false);
    };
    trace.push_step(step)?;
    Ok(true)
}

/// Takes a time, if no step has come. The only error is out of memory.
fn add_time(trace: &mut Trace, node: u32, time: u32) -> Result<bool, AllocError>
    requires { IsShapedTrace trace.old }
    ensures added { IfOk result (λ added. IsTrue added ↔
        ((trace.old.steps ≡ []) × AreShapedTimes (trace.old.times ++ (node, time) ∷ []))) }
    ensures pushed { IfOk result (λ added. IsTrue added →
        trace.new ≡ record trace.old { times = trace.old.times ++ (node, time) ∷ [] }) }
{
    if !trace.steps().is_empty() || !trace.takes_time(node, time) {
        return Ok(false);
    }
    trace.push_time(node, time)?;
    Ok(true)
}
