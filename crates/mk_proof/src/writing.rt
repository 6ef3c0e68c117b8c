//! From a proof to its text.
ghost use Rattle.std.specs.Prelude.{◌≡◌, ◌<◌, ◌++◌, ◌∷◌, [], codes, length, map, IfOk, OnOk};
ghost use Rattle.std.specs.Fmt.{decimal};
ghost use Rattle.std.specs.List.{flat_map};
ghost use Rattle.hex.specs.Hex.{IsBytes};
ghost use Rattle.mk_proof.specs.ProofText.{ReadsAs, certificate_text, chain_line, path_line, step_line, text_of, time_line, trace_text, written};
ghost use Rattle.mk_proof.specs.Shapes.{IsShapedTrace};
ghost use Rattle.mk_proof.specs.declared.proof.Proof.TheVariants as proofs;

use crate::certificate::Certificate;
use crate::step::Step;
use crate::trace::Trace;
use itoa::Buffer;
use std::alloc::{AllocError, Global};

/// Puts numbers at the end, with a space before each. The only error is out of memory.
fn push_numbers(out: &mut Vec<u8>, numbers: &[u32]) -> Result<(), AllocError>
    ensures { OnOk result (out.new.items ≡ out.old.items ++ flat_map (λ n. 32 ∷ decimal n) numbers.now) }
{
    let mut buffer = Buffer::new();
    for number in numbers {
        out.push(b' ')?;
        out.extend_from_slice(buffer.format(*number).as_bytes())?;
    }
    Ok(())
}

/// Puts the line of a word and numbers at the end. The only error is out of memory.
fn push_line(out: &mut Vec<u8>, word: &[u8], numbers: &[u32]) -> Result<(), AllocError>
    ensures { OnOk result (out.new.items ≡ out.old.items ++ written (word.now ∷ map decimal numbers.now)) }
{
    out.extend_from_slice(word)?;
    push_numbers(out, numbers)?;
    out.push(b'\n')?;
    Ok(())
}

/// Puts the line of a chain at the end. The only error is out of memory.
fn push_chain(out: &mut Vec<u8>, chain: &[u32]) -> Result<(), AllocError>
    requires { 0 < length chain.now }
    ensures { OnOk result (out.new.items ≡ out.old.items ++ written (chain_line chain.now)) }
{
    let mut buffer = Buffer::new();
    push_line(out, buffer.format(chain[0]).as_bytes(), &chain[1..])
}

/// Puts the line of a path at the end. The only error is out of memory.
fn push_path(out: &mut Vec<u8>, alloc: Global, path: &[u8]) -> Result<(), AllocError>
    ensures { OnOk result (out.new.items ≡ out.old.items ++ written (path_line path.now)) }
{
    let spelled = hex::encode(alloc, path)?;
    out.extend_from_slice(b"path ")?;
    out.extend_from_slice(spelled.as_bytes())?;
    out.push(b'\n')?;
    Ok(())
}

/// Puts the lines of times at the end. The only error is out of memory.
fn push_times(out: &mut Vec<u8>, times: &[(u32, u32)]) -> Result<(), AllocError>
    ensures { OnOk result (out.new.items ≡ out.old.items ++ text_of (map time_line times.now)) }
{
    for timed in times {
        let (node, time) = *timed;
        push_line(out, b"time", &[node, time])?;
    }
    Ok(())
}

/// Puts the line of a step at the end. The only error is out of memory.
fn push_step(out: &mut Vec<u8>, step: Step) -> Result<(), AllocError>
    ensures { OnOk result (out.new.items ≡ out.old.items ++ written (step_line step)) }
{
    match step {
        Step::Skip(node) => push_line(out, b"skip", &[node]),
        Step::Start(node) => push_line(out, b"start", &[node]),
        Step::Finish(node) => push_line(out, b"finish", &[node]),
    }
}

/// Puts the lines of steps at the end. The only error is out of memory.
fn push_steps(out: &mut Vec<u8>, steps: &[Step]) -> Result<(), AllocError>
    ensures { OnOk result (out.new.items ≡ out.old.items ++ text_of (map step_line steps.now)) }
{
    for step in steps {
        push_step(out, *step)?;
    }
    Ok(())
}

/// Puts the lines of a certificate's chains at the end. The only error is out of memory.
fn push_chains(out: &mut Vec<u8>, certificate: &Certificate) -> Result<(), AllocError>
    ensures { OnOk result (out.new.items ≡ out.old.items ++ text_of (map chain_line certificate.now)) }
{
    for number in 0..certificate.count() {
        push_chain(out, certificate.chain(number))?;
    }
    Ok(())
}

/// Writes a certificate (profile); docs/FORMATS.md has its form. `read_proof` reads the text as the same certificate. The
/// only error is out of memory.
pub fn write_certificate(alloc: Global, certificate: &Certificate) -> Result<Vec<u8>, AllocError>
    ensures text { IfOk result (λ text. text.items ≡ certificate_text certificate.now) }
    ensures reads_back { IfOk result (λ text. ReadsAs text.items (proofs.Certificate certificate.now)) }
{
    let mut text = Vec::new(alloc);
    push_line(&mut text, b"certificate", &[certificate.count() as u32])?;
    push_chains(&mut text, certificate)?;
    Ok(text)
}

/// Writes a trace (profile); docs/FORMATS.md has its form. `read_proof` reads the text as the same trace. The only error is
/// out of memory.
pub fn write_trace(alloc: Global, trace: &Trace) -> Result<Vec<u8>, AllocError>
    ensures text { IfOk result (λ text. text.items ≡ trace_text trace.now) }
    ensures reads_back { IfOk result (λ text. ReadsAs text.items (proofs.Trace trace.now)) }
{
    let mut text = Vec::new(alloc);
    push_trace(&mut text, alloc, trace)?;
    Ok(text)
}

/// Puts the lines of a trace at the end. The only error is out of memory.
fn push_trace(out: &mut Vec<u8>, alloc: Global, trace: &Trace) -> Result<(), AllocError>
    ensures text { OnOk result (out.new.items ≡ out.old.items ++ trace_text trace.now) }
    ensures shaped { OnOk result (IsShapedTrace trace.now) }
    ensures bytes { OnOk result (IsBytes trace.now.path) }
{
    push_line(out, b"trace", &[trace.first(), trace.second()])?;
    push_path(out, alloc, trace.path())?;
    push_times(out, trace.times())?;
    push_steps(out, trace.steps())?;
    push_line(out, b"end", &[])
}
