//! The inputs of a build that is asked about: all are opened, and then read, the listing and the footprints in pieces.
ghost use Rattle.std.specs.Prelude.{◌≡◌, ◌≢◌, IfErr, IfOk, IfSome, List, OnOk, Some, false, option_map, true, ℕ};
ghost use Rattle.std.specs.List.{All};
ghost use Rattle.std.specs.Option.{option_to_list};
ghost use Rattle.mk_device.specs.Device.{has_failed_if};
ghost use Rattle.mk_request.specs.Requests.{build_inputs, job_inputs};
ghost use Rattle.mk_files.specs.Builds as spec;
ghost use Rattle.mk_files.specs.Inputs.{Hold, InputsMayBeRead, IsFirstToFail, IsShortOr, IsUnread, MayWork};

use crate::failures::Failure;
use crate::inputs::{OpenInput, opened, opened_input, text_in};
use crate::openers::Opener;
use mk_device::device::Intake;
use mk_read::builds::{ReadBuild, ReadPlan, build_below, plan_below};
use mk_request::inputs::{InputFile, InputPath};
use mk_request::requests::BuildArgs;
use std::alloc::Global;

/// The files that a build is planned from, which are open.
#[derive(Drop)]
struct OpenPlan<F> {
    base: Option<F>,
    makefile: F,
    listing: F,
}

/// The files of a build and of one more input, where there is one, which are open.
#[derive(Drop)]
struct OpenBuild<F> {
    plan: OpenPlan<F>,
    footprints: F,
    other: Option<OpenInput<F>>,
}

/// What was read of a build, and the text of one more input, which is empty where it is not given. A base that is not given is
/// empty too.
#[derive(Drop)]
pub struct ReadJob {
    pub build: ReadBuild,
    pub other: Vec<u8>,
}

/// Reads what a build is planned from. All files are opened before any is read, in the order of the fields of [`ReadPlan`], and read
/// in the same order. `Failure::Read` names the first input whose file cannot be opened, or cannot be read; the only other failure
/// is out of memory.
pub fn read_plan<P: Opener>(
    alloc: Global,
    opener: &mut P,
    build: &BuildArgs<'_>,
) -> Result<ReadPlan, Failure>
    ensures reported { IfOk result (λ read. (text : InputFile → List ℕ)
        → Hold (P.files opener.old).text (build_inputs build.now) text
        → spec.IsPlanReadAs build.now.root.now text read) }
    ensures read { OnOk result (InputsMayBeRead (P.files opener.old) (build_inputs build.now)) }
    ensures failure { IfErr result (IsShortOr (IsUnread (P.files opener.old) (build_inputs build.now))) }
{
    let files = open_plan(opener, build)?;
    plan_in(alloc, build.root.as_bytes(), files)
}

/// Reads a build, its footprints and one more input, where there is one. All files are opened before any is read, in the
/// order of the fields of [`ReadPlan`], [`ReadBuild`] and then of [`ReadJob`], and read in the same order.
/// `Failure::Read` names the first input whose file cannot be opened, or cannot be read; the only other failure is out of memory.
pub fn read_build<P: Opener>(
    alloc: Global,
    opener: &mut P,
    build: &BuildArgs<'_>,
    footprints: &str,
    other: Option<InputPath<'_>>,
) -> Result<ReadJob, Failure>
    ensures reported { IfOk result (λ read. (text : InputFile → List ℕ)
        → IfSome other.entry (λ known. known.input ≢ InputFile.Base)
        → Hold (P.files opener.old).text (job_inputs build.now footprints.entry other.entry) text
        → spec.IsJobReadAs build.now.root.now other.entry text read) }
    ensures read { OnOk result (InputsMayBeRead (P.files opener.old)
        (job_inputs build.now footprints.entry other.entry)) }
    ensures failure { IfErr result (IsShortOr (IsUnread (P.files opener.old)
        (job_inputs build.now footprints.entry other.entry))) }
{
    let files = open_build(opener, build, footprints, other)?;
    build_in(alloc, build.root.as_bytes(), files)
}

/// Opens the files of a build, of its footprints and of one more input, in their order.
fn open_build<P: Opener>(
    opener: &mut P,
    build: &BuildArgs<'_>,
    footprints: &str,
    other: Option<InputPath<'_>>,
) -> Result<OpenBuild<P::File>, Failure>
    ensures work { IfOk result (spec.AllWork P.File.has_failed) }
    ensures reported { IfOk result (λ files. spec.stated_in P.File.left files
        ≡ spec.stated_at (P.files opener.old).text build.now footprints.entry other.entry) }
    ensures reads { IfOk result (λ files. spec.open_marks P.File.readable files
        ≡ spec.path_marks (P.files opener.old).reads build.now footprints.entry other.entry) }
    ensures opened { OnOk result (All MayWork
        (spec.path_marks (P.files opener.old).opens build.now footprints.entry other.entry)) }
    ensures failure { IfErr result (IsShortOr (IsFirstToFail
        (spec.path_marks (P.files opener.old).opens build.now footprints.entry other.entry))) }
{
    let plan = open_plan(opener, build)?;
    let footprints = opened(opener, InputFile::Footprints, footprints)?;
    let other = opened_if(opener, other)?;
    Ok(OpenBuild {
        plan,
        footprints,
        other,
    })
}

/// Opens the files that a build is planned from, in their order.
fn open_plan<P: Opener>(opener: &mut P, build: &BuildArgs<'_>) -> Result<OpenPlan<P::File>, Failure>
    ensures work { IfOk result (spec.PlanWorks P.File.has_failed) }
    ensures reported { IfOk result (λ files. spec.plan_stated_in P.File.left files
        ≡ spec.plan_stated_at (P.files opener.old).text build.now) }
    ensures reads { IfOk result (λ files. spec.open_plan_marks P.File.readable files
        ≡ spec.plan_path_marks (P.files opener.old).reads build.now) }
    ensures opened { OnOk result (All MayWork (spec.plan_path_marks (P.files opener.old).opens build.now)) }
    ensures failure { IfErr result (IsShortOr (IsFirstToFail
        (spec.plan_path_marks (P.files opener.old).opens build.now))) }
    ensures same { P.files opener.new ≡ P.files opener.old }
{
    let base = opened_base(opener, build)?;
    let makefile = opened(opener, InputFile::Makefile, build.makefile)?;
    let listing = opened(opener, InputFile::Listing, build.listing)?;
    Ok(OpenPlan {
        base,
        makefile,
        listing,
    })
}

/// Opens the file of the base makefile of a build, where one is given. The error is `Failure::Read` of the base.
fn opened_base<P: Opener>(opener: &mut P, build: &BuildArgs<'_>) -> Result<Option<P::File>, Failure>
    ensures works { IfOk result (λ file. has_failed_if P.File.has_failed file ≡ false) }
    ensures text { IfOk result (λ file. option_map P.File.left file
        ≡ option_map (λ path. (P.files opener.old).text path.now) build.now.base) }
    ensures reads { IfOk result (λ file. option_map (spec.base_mark P.File.readable) file
        ≡ option_map (λ path. spec.base_mark (P.files opener.old).reads path.now) build.now.base) }
    ensures can { OnOk result (All MayWork
        (option_to_list (option_map (λ path. spec.base_mark (P.files opener.old).opens path.now) build.now.base))) }
    ensures cannot { IfErr result (IsShortOr (IsFirstToFail
        (option_to_list (option_map (λ path. spec.base_mark (P.files opener.old).opens path.now) build.now.base)))) }
    ensures same { P.files opener.new ≡ P.files opener.old }
{
    match build.base {
        Some(path) => Ok(Some(opened(opener, InputFile::Base, path)?)),
        None => Ok(None),
    }
}

/// Opens the file of an input, where there is one. The error is `Failure::Read` of that input.
fn opened_if<P: Opener>(
    opener: &mut P,
    known: Option<InputPath<'_>>,
) -> Result<Option<OpenInput<P::File>>, Failure>
    ensures works { IfOk result (λ file. IfSome file (λ file. P.File.has_failed file.file ≡ false)) }
    ensures text { IfOk result (λ file. option_map (λ file. P.File.left file.file) file
        ≡ option_map (λ known. (P.files opener.old).text known.path.now) known.entry) }
    ensures reads { IfOk result (λ file. option_map (spec.mark_of P.File.readable) file
        ≡ option_map (spec.path_mark (P.files opener.old).reads) known.entry) }
    ensures can { OnOk result (All MayWork
        (option_to_list (option_map (spec.path_mark (P.files opener.old).opens) known.entry))) }
    ensures cannot { IfErr result (IsShortOr (IsFirstToFail
        (option_to_list (option_map (spec.path_mark (P.files opener.old).opens) known.entry)))) }
    ensures same { P.files opener.new ≡ P.files opener.old }
{
    match known {
        Some(known) => Ok(Some(opened_input(opener, &known)?)),
        None => Ok(None),
    }
}

/// Reads the open files of a build to their ends, in their order.
fn build_in<F: Intake + Drop>(
    alloc: Global,
    root: &[u8],
    files: OpenBuild<F>,
) -> Result<ReadJob, Failure>
    requires { spec.AllWork F.has_failed files }
    ensures reported { IfOk result (spec.AreRead (spec.stated_in F.left files) root.now) }
    ensures read { OnOk result (All MayWork (spec.open_marks F.readable files)) }
    ensures failure { IfErr result (IsShortOr (IsFirstToFail (spec.open_marks F.readable files))) }
{
    let OpenBuild {
        plan,
        footprints,
        other,
    } = files;
    let OpenPlan {
        mut base,
        mut makefile,
        mut listing,
    } = plan;
    let mut footprints = footprints;
    let build = build_below(
        alloc,
        root,
        &mut base,
        &mut makefile,
        &mut listing,
        &mut footprints,
    )?;
    let other = text_if(alloc, other)?;
    Ok(ReadJob { build, other })
}

/// Reads the open files that a build is planned from to their ends, in their order.
fn plan_in<F: Intake + Drop>(
    alloc: Global,
    root: &[u8],
    files: OpenPlan<F>,
) -> Result<ReadPlan, Failure>
    requires { spec.PlanWorks F.has_failed files }
    ensures reported { IfOk result (spec.IsPlanRead (spec.plan_stated_in F.left files) root.now) }
    ensures read { OnOk result (All MayWork (spec.open_plan_marks F.readable files)) }
    ensures failure { IfErr result (IsShortOr (IsFirstToFail (spec.open_plan_marks F.readable files))) }
{
    let OpenPlan {
        mut base,
        mut makefile,
        mut listing,
    } = files;
    let read = plan_below(alloc, root, &mut base, &mut makefile, &mut listing)?;
    Ok(read)
}

/// The text of an open input, read to its end, which is empty where there is none.
fn text_if<F: Intake + Drop>(alloc: Global, given: Option<OpenInput<F>>) -> Result<Vec<u8>, Failure>
    requires { IfSome given (λ file. F.has_failed file.file ≡ false) }
    ensures text { IfOk result (λ text. spec.IsGiven (option_map (λ file. F.left file.file) given) text.items) }
    ensures can { OnOk result (All MayWork (option_to_list (option_map (spec.mark_of F.readable) given))) }
    ensures cannot { IfErr result (IsShortOr (IsFirstToFail
        (option_to_list (option_map (spec.mark_of F.readable) given)))) }
{
    match given {
        Some(OpenInput { input, file }) => text_in(alloc, input, file),
        None => Ok(Vec::new(alloc)),
    }
}
