//! The inputs of a build: the paths of their files, and the texts that are read from these.
ghost use Rattle.std.specs.Prelude.{◌≡◌, ◌≢◌, ◌⊎◌, IfErr, IfOk, IfSome, List, OnOk, Some, false, map, true, ℕ};
ghost use Rattle.std.specs.List.{All};
ghost use Rattle.mk_files.specs.Inputs as spec;

use crate::failures::Failure;
use crate::openers::Opener;
use mk_device::device::{Intake, ReadStop, read_all};
use mk_request::inputs::{InputFile, InputPath};
use std::alloc::Global;

/// An input, and its text.
#[derive(Drop)]
pub struct InputText {
    pub input: InputFile,
    pub text: Vec<u8>,
}

/// An input, and its file, which is open.
#[derive(Drop)]
pub(crate) struct OpenInput<F> {
    pub(crate) input: InputFile,
    pub(crate) file: F,
}

/// The texts of some inputs. All files are opened, in the order of the inputs, before any is read, in the same order.
/// `Failure::Read` names the first input whose file cannot be opened, or cannot be read; the only other failure is out
/// of memory.
pub fn read_inputs<P: Opener>(
    alloc: Global,
    opener: &mut P,
    inputs: &[InputPath<'_>],
) -> Result<Vec<InputText>, Failure>
    ensures reported { IfOk result (λ texts. (text : InputFile → List ℕ)
        → spec.Hold (P.files opener.old).text inputs.now text → spec.AreTexts texts.items text) }
    ensures read { OnOk result (spec.InputsMayBeRead (P.files opener.old) inputs.now) }
    ensures failure { IfErr result (spec.IsShortOr (spec.IsUnread (P.files opener.old) inputs.now)) }
{
    let files = open_all(alloc, opener, inputs)?;
    read_files(alloc, files)
}

/// The text of an input, which is empty where it is not among these.
pub fn text_of<'a>(texts: &'a [InputText], input: InputFile) -> &'a [u8]
    ensures { spec.IsTextOf texts.now input result.now }
{
    for known in texts {
        if known.input == input {
            return known.text.as_slice();
        }
    }
    &[]
}

/// Opens the files of some inputs, in their order.
fn open_all<P: Opener>(
    alloc: Global,
    opener: &mut P,
    inputs: &[InputPath<'_>],
) -> Result<Vec<OpenInput<P::File>>, Failure>
    ensures works { IfOk result (λ files. All (λ file. P.File.has_failed file.file ≡ false) files.items) }
    ensures named { IfOk result (λ files.
        map (λ file. file.input) files.items ≡ map (λ known. known.input) inputs.now) }
    ensures reported { IfOk result (λ files. (text : InputFile → List ℕ)
        → spec.HoldEach (P.files opener.old).text inputs.now text
        → All (λ file. P.File.left file.file ≡ Some (text file.input)) files.items) }
    ensures reads { IfOk result (λ files. map (λ file. (file.input, P.File.readable file.file)) files.items
        ≡ spec.marks (P.files opener.old).reads inputs.now) }
    ensures opened { OnOk result (All spec.MayWork (spec.marks (P.files opener.old).opens inputs.now)) }
    ensures failure { IfErr result (spec.IsShortOr
        (spec.IsFirstToFail (spec.marks (P.files opener.old).opens inputs.now))) }
{
    let mut files = Vec::new(alloc);
    for known in inputs {
        let file = opened_input(opener, known)?;
        files.push(file)?;
    }
    Ok(files)
}

/// Opens the file of an input. The error is `Failure::Read` of that input.
pub(crate) fn opened_input<P: Opener>(
    opener: &mut P,
    known: &InputPath<'_>,
) -> Result<OpenInput<P::File>, Failure>
    ensures input { IfOk result (λ file. file.input ≡ known.now.input) }
    ensures works { IfOk result (λ file. P.File.has_failed file.file ≡ false) }
    ensures text { IfOk result (λ file.
        P.File.left file.file ≡ (P.files opener.old).text known.now.path.now) }
    ensures reads { IfOk result (λ file.
        P.File.readable file.file ≡ (P.files opener.old).reads known.now.path.now) }
    ensures can { OnOk result ((P.files opener.old).opens known.now.path.now ≢ Some false) }
    ensures cannot { IfErr result (λ failure. (failure ≡ Failure.Read known.now.input)
        × ((P.files opener.old).opens known.now.path.now ≢ Some true)) }
    ensures same { P.files opener.new ≡ P.files opener.old }
{
    let input = known.input;
    let file = opened(opener, input, known.path)?;
    Ok(OpenInput { input, file })
}

/// Opens the file of this path, which is that of an input. The error is `Failure::Read` of that input.
pub(crate) fn opened<P: Opener>(
    opener: &mut P,
    input: InputFile,
    path: &str,
) -> Result<P::File, Failure>
    ensures works { IfOk result (λ file. P.File.has_failed file ≡ false) }
    ensures text { IfOk result (λ file. P.File.left file ≡ (P.files opener.old).text path.now) }
    ensures reads { IfOk result (λ file. P.File.readable file ≡ (P.files opener.old).reads path.now) }
    ensures can { OnOk result ((P.files opener.old).opens path.now ≢ Some false) }
    ensures cannot { IfErr result (λ failure. (failure ≡ Failure.Read input)
        × ((P.files opener.old).opens path.now ≢ Some true)) }
    ensures same { P.files opener.new ≡ P.files opener.old }
{
    match opener.open(path) {
        Ok(file) => Ok(file),
        Err(_) => Err(Failure::Read(input)),
    }
}

/// Reads files to their ends, in their order.
fn read_files<F: Intake + Drop>(
    alloc: Global,
    files: Vec<OpenInput<F>>,
) -> Result<Vec<InputText>, Failure>
    requires { All (λ file. F.has_failed file.file ≡ false) files.items }
    ensures named { IfOk result (λ texts.
        map (λ known. known.input) texts.items ≡ map (λ file. file.input) files.items) }
    ensures reported { IfOk result (λ texts. (text : InputFile → List ℕ)
        → All (λ file. F.left file.file ≡ Some (text file.input)) files.items
        → All (λ known. known.text.items ≡ text known.input) texts.items) }
    ensures read { OnOk result (All spec.MayWork
        (map (λ file. (file.input, F.readable file.file)) files.items)) }
    ensures failure { IfErr result (spec.IsShortOr (spec.IsFirstToFail
        (map (λ file. (file.input, F.readable file.file)) files.items))) }
{
    let mut texts = Vec::new(alloc);
    for file in files {
        let text = input_text(alloc, file)?;
        texts.push(text)?;
    }
    Ok(texts)
}

/// The text of an open input, read to its end. The errors are `Failure::Read` of that input and `Failure::Memory`.
fn input_text<F: Intake + Drop>(alloc: Global, given: OpenInput<F>) -> Result<InputText, Failure>
    requires { F.has_failed given.file ≡ false }
    ensures input { IfOk result (λ known. known.input ≡ given.input) }
    ensures text { IfOk result (λ known. IfSome (F.left given.file) (λ bytes. known.text.items ≡ bytes)) }
    ensures can { OnOk result (F.readable given.file ≢ Some false) }
    ensures cannot { IfErr result (λ failure. (failure ≡ Failure.Memory)
        ⊎ ((failure ≡ Failure.Read given.input) × (F.readable given.file ≢ Some true))) }
{
    let OpenInput { input, file } = given;
    let text = text_in(alloc, input, file)?;
    Ok(InputText { input, text })
}

/// The text of an open file, which is that of an input, read to its end. The errors are `Failure::Read` of that input and
/// `Failure::Memory`.
pub(crate) fn text_in<F: Intake + Drop>(
    alloc: Global,
    input: InputFile,
    file: F,
) -> Result<Vec<u8>, Failure>
    requires { F.has_failed file ≡ false }
    ensures text { IfOk result (λ text. IfSome (F.left file) (λ bytes. text.items ≡ bytes)) }
    ensures can { OnOk result (F.readable file ≢ Some false) }
    ensures cannot { IfErr result (λ failure. (failure ≡ Failure.Memory)
        ⊎ ((failure ≡ Failure.Read input) × (F.readable file ≢ Some true))) }
{
    let mut file = file;
    match read_all(alloc, &mut file) {
        Ok(text) => Ok(text),
        Err(ReadStop::Memory) => Err(Failure::Memory),
        Err(ReadStop::Broken) => Err(Failure::Read(input)),
    }
}
