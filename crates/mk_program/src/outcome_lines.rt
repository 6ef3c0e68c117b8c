//! What is said of a log.
ghost use Rattle.std.specs.Prelude.{◌≡◌, ◌++◌, IfOk, OnOk};
ghost use Rattle.mk_sched.specs.Stored.{IsInOrder};
ghost use Rattle.mk_program.specs.OutcomeText as spec;

use mk_name::name::Name;
use mk_name::report::push_shown;
use mk_race::replaying::Played;
use mk_sched::file::File;
use mk_sched::refusal::Refusal;
use mk_sched::replay::Replayed;
use std::alloc::{AllocError, Global};

/// What is said of a log (profile): that the log is a run, whether it is complete, and a line for each file that it
/// leaves, in the byte order of names; or that it is none, why and where. The only error is out of memory.
pub fn outcome_text(alloc: Global, played: &Played) -> Result<Vec<u8>, AllocError>
    ensures { IfOk result (λ text. spec.IsOutcomeText played.now text.items) }
{
    match played {
        Played::Allowed(replayed) => allowed_text(alloc, replayed),
        Played::NotAllowed { place, refusal } => not_allowed_text(alloc, *place, *refusal),
    }
}

/// That a log is no run, why and where. The only error is out of memory.
pub(crate) fn not_allowed_text(
    alloc: Global,
    place: u64,
    refusal: Refusal,
) -> Result<Vec<u8>, AllocError>
    ensures { IfOk result (λ text. text.items ≡ spec.not_allowed_text place refusal) }
{
    let number = refusal.number();
    let word = refusal.word();
    let text = format!(in alloc; "not allowed V{number} {word} at {place}\n")?;
    Ok(text.into_bytes())
}

fn allowed_text(alloc: Global, replayed: &Replayed) -> Result<Vec<u8>, AllocError>
    ensures text { IfOk result (λ text. text.items ≡ spec.allowed_text replayed.now) }
    ensures in_order { OnOk result (IsInOrder replayed.now.store) }
{
    let head = if replayed.complete {
        b"allowed complete\n".as_slice()
    } else {
        b"allowed incomplete\n".as_slice()
    };
    let mut out = Vec::from_slice(alloc, head)?;
    for (name, file) in replayed.store.files() {
        push_file(&mut out, alloc, name, file)?;
    }
    Ok(out)
}

/// Puts the line of a file at the end.
fn push_file(out: &mut Vec<u8>, alloc: Global, name: &Name, file: &File) -> Result<(), AllocError>
    ensures { OnOk result (out.new.items ≡ out.old.items ++ spec.file_line (name.now, file.now)) }
{
    let time = file.time();
    let middle = format!(in alloc; " {time} ")?;
    out.extend_from_slice(b"file ")?;
    push_shown(out, name.as_bytes())?;
    out.extend_from_slice(middle.as_bytes())?;
    push_hexadecimal(out, alloc, file.contents().as_bytes())?;
    out.push(b'\n')?;
    Ok(())
}

/// Puts bytes at the end in lower case hexadecimal, or a hyphen where there are none.
fn push_hexadecimal(out: &mut Vec<u8>, alloc: Global, bytes: &[u8]) -> Result<(), AllocError>
    ensures { OnOk result (out.new.items ≡ out.old.items ++ spec.hexadecimal bytes.now) }
{
    if bytes.is_empty() {
        out.push(b'-')?;
        return Ok(());
    }
    let digits = hex::encode(alloc, bytes)?;
    out.extend_from_slice(digits.as_bytes())
}
