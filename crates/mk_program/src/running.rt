//! The program: from the words of the command line to what is written.
ghost use Rattle.std.specs.Prelude.{◌≡◌, ◌≢◌, ◌↔◌, ◌⊎◌, [], IfErr, IfOk, IsErrOf, OnErr, OnOk, String, false, is_err, true};
ghost use Rattle.std.specs.Global.{Global};
ghost use Rattle.std.specs.Io.KnownBytes.{Appends};
ghost use Rattle.clap.specs.Words.{kind_of};
ghost use Rattle.mk_name.specs.Shown.{line};
ghost use Rattle.mk_program.specs.Answers as spec;
ghost use Rattle.mk_request.specs.CommandLine.{IsAnswerable, IsCall, asked, wrong};
ghost use Rattle.mk_files.specs.Failures.{IsFailureReported};

use crate::answers::{Answer, answer_of};
use crate::noting::{Reply, without_note};
use crate::statuses::Status;
use clap::error::ErrorKind;
use mk_device::device::{Broken, Outlet, write_all};
use mk_files::failures::Failure;
use mk_files::openers::Opener;
use mk_request::words::read_words;
use std::alloc::Global;

/// Runs the program on the words of the command line, of which the first is its own name. The answer, the help or the
/// version goes to `out`; what is wrong with the words, a device or memory to `err`, whose own failure is passed over. So does
/// what is said beside an answer, once that is written: of a refusal its line, and the note.
/// Every file is opened and read to its end before anything is written: the includes first, one after another, and then
/// the others, which are all opened before one of them is read.
pub fn race_words<'a, P: Opener, O: Outlet, E: Outlet>(
    alloc: Global,
    words: &'a [&'a str],
    opener: &mut P,
    out: &mut O,
    err: &mut E,
) -> Status
    requires out_works { O.has_failed out.old ≡ false }
    requires err_works { E.has_failed err.old ≡ false }
    // Words that are right get their answer, and words that are wrong get none.
    ensures answer { wrong words.entry.now ≡ [] → result ≢ Status.Failed → spec.WritesAnswer
        words.entry.now (P.files opener.old).text result (O.written out.old) (O.written out.new) }
    ensures refused { result ≡ Status.Refused → spec.WritesAnswer
        words.entry.now (P.files opener.old).text result (O.written out.old) (O.written out.new) }
    ensures no { result ≡ Status.No → spec.WritesAnswer
        words.entry.now (P.files opener.old).text result (O.written out.old) (O.written out.new) }
    ensures usage { result ≢ Status.Failed → IsAnswerable (wrong words.entry.now) }
    // No answer comes where a file that the words name cannot be opened or read.
    ensures read { wrong words.entry.now ≡ [] → result ≢ Status.Failed
        → spec.AreInputsRead words.entry.now (P.files opener.old) }
    // The yes: where the words ask to check a build and the program ends with 0, no schedule of the build shows in its files.
    ensures safe { wrong words.entry.now ≡ [] → spec.AskToCheck (asked words.entry.now)
        → result ≡ Status.Done → spec.SaysSafe words.entry.now (P.files opener.old).text }
    // What is not the whole answer is nothing, or what a device took before it failed.
    ensures nothing { result ≡ Status.Failed → O.has_failed out.new ≡ false → out.new ≡ out.old }
    ensures beginning { wrong words.entry.now ≡ [] → O.has_failed out.new ≡ true
        → spec.WritesBeginning words.entry.now (P.files opener.old).text (O.written out.old) (O.written out.new) }
    // A failure is reported by its line, where the device takes one, and nothing else is.
    ensures failed { O.has_failed out.new ≡ true → result ≡ Status.Failed }
    ensures reported { result ≡ Status.Failed → E.has_failed err.new ≡ false → (failure : Failure)
        × spec.IsFailureOf words.entry.now (P.files opener.old) failure
        × ((failure ≡ Failure.Write) ↔ (O.has_failed out.new ≡ true))
        × IsFailureReported failure (E.written err.old) (E.written err.new) }
    // Else what is said beside the answer is written: of a refusal its line, and the note of footprints that lie unused.
    ensures note { wrong words.entry.now ≡ [] → result ≢ Status.Failed → E.has_failed err.new ≡ false
        → spec.WritesNote words.entry.now (P.files opener.old).text result
        (O.written out.old) (O.written out.new) (E.written err.old) (E.written err.new) }
    ensures silent { result ≢ Status.Failed → (err.new ≡ err.old)
        ⊎ ((wrong words.entry.now ≡ []) × spec.HasNote words.entry.now (P.files opener.old).text result) }
{
    match answer_written(alloc, words, opener, out) {
        Ok(reply) => {
            write_note(reply.note.as_slice(), err);
            reply.answer.status
        }
        Err(failure) => fail(&failure, err),
    }
}

/// Writes what is said beside an answer, where that is not empty, on the standard error, whose failure is passed over. It needs no
/// memory.
fn write_note<E: Outlet>(note: &[u8], err: &mut E)
    requires { E.has_failed err.old ≡ false }
    ensures none { note.now ≡ [] → err.new ≡ err.old }
    ensures written { E.has_failed err.new ≡ false → Appends (E.written err.old) (E.written err.new) note.now }
{
    if note.is_empty() {
        return;
    }
    let written = write_all(err, note);
    let _ = written;
}

/// Reports a failure by a line on the standard error, whose own failure is passed over, and says how the program ends. It needs
/// no memory.
pub fn fail<E: Outlet>(failure: &Failure, err: &mut E) -> Status
    requires { E.has_failed err.old ≡ false }
    ensures status { result ≡ Status.Failed }
    ensures reported { E.has_failed err.new ≡ false
        → IsFailureReported failure.now (E.written err.old) (E.written err.new) }
{
    let reported = write_line(err, failure.text().as_bytes());
    let _ = reported;
    Status::Failed
}

/// Writes a text and a newline. `Broken` comes exactly where the device fails.
fn write_line<E: Outlet>(device: &mut E, text: &[u8]) -> Result<(), Broken>
    requires { E.has_failed device.old ≡ false }
    ensures written { OnOk result (Appends (E.written device.old) (E.written device.new) (line text.now)) }
    ensures failed { E.has_failed device.new ≡ is_err result }
{
    write_all(device, text)?;
    write_all(device, b"\n")?;
    Ok(())
}

/// Writes the answer, the help or the version.
fn answer_written<'a, P: Opener, O: Outlet>(
    alloc: Global,
    words: &'a [&'a str],
    opener: &mut P,
    out: &mut O,
) -> Result<Reply, Failure>
    requires { O.has_failed out.old ≡ false }
    ensures status { IfOk result (λ reply. reply.answer.status ≢ Status.Failed) }
    ensures written { IfOk result (λ reply. Appends (O.written out.old) (O.written out.new) reply.answer.text.items) }
    ensures said { IfOk result (λ reply. spec.IsSaid words.entry.now (P.files opener.old)
        reply.answer.status reply.answer.text.items reply.note.items) }
    ensures nothing { OnErr result (O.has_failed out.new ≡ false → out.new ≡ out.old) }
    ensures beginning { wrong words.entry.now ≡ [] → O.has_failed out.new ≡ true
        → spec.WritesBeginning words.entry.now (P.files opener.old).text (O.written out.old) (O.written out.new) }
    ensures write { IsErrOf result Failure.Write ↔ (O.has_failed out.new ≡ true) }
    ensures failure { IfErr result (spec.IsFailureOf words.entry.now (P.files opener.old)) }
{
    let reply = answer_to(alloc, words, opener)?;
    match write_all(out, reply.answer.text.as_slice()) {
        Ok(()) => Ok(reply),
        Err(_) => Err(Failure::Write),
    }
}

/// The answer to what the words ask with its note, or the help or the version.
fn answer_to<'a, P: Opener>(
    alloc: Global,
    words: &'a [&'a str],
    opener: &mut P,
) -> Result<Reply, Failure>
    ensures status { IfOk result (λ reply. reply.answer.status ≢ Status.Failed) }
    ensures said { IfOk result (λ reply. spec.IsSaid words.entry.now (P.files opener.old)
        reply.answer.status reply.answer.text.items reply.note.items) }
    ensures write { IfErr result (λ failure. failure ≢ Failure.Write) }
    ensures failure { IfErr result (spec.IsFailureOf words.entry.now (P.files opener.old)) }
{
    match read_words(alloc, words) {
        Ok(request) => answer_of(alloc, &request, opener),
        Err(error) => called_for(alloc, &error),
    }
}

/// The help or the version, where the words call for it.
fn called_for(alloc: Global, error: &clap::Error) -> Result<Reply, Failure>
    ensures status { IfOk result (λ reply. reply.answer.status ≡ Status.Done) }
    ensures note { IfOk result (λ reply. reply.note.items ≡ []) }
    ensures call { OnOk result (IsCall (kind_of error.now)) }
    ensures failure { IfErr result (λ failure. (failure ≡ Failure.Memory)
        ⊎ ((text : String Global) × (failure ≡ Failure.Usage text) × ¬ IsCall (kind_of error.now)
        × (kind_of error.now ≢ ErrorKind.OutOfMemory))) }
    ensures memory { kind_of error.now ≡ ErrorKind.OutOfMemory → IsErrOf result Failure.Memory }
{
    if error.kind() == ErrorKind::OutOfMemory {
        return Err(Failure::Memory);
    }
    let text = error.to_string(alloc)?;
    if error.use_stderr() {
        return Err(Failure::Usage(String::from_str(alloc, text.trim_end())?));
    }
    let answer = Answer {
        status: Status::Done,
        text: text.into_bytes(),
        fault: None,
    };
    Ok(without_note(alloc, answer))
}
