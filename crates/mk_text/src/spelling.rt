//! The plain spelling of paths.
ghost use Rattle.std.specs.Prelude.{◌≡◌, List, ℕ, [], ◌∷◌, ◌++◌, All, codes, IfOk};
ghost use Rattle.mk_name.specs.Gives.{Gives, Halts};
ghost use Rattle.mk_text.specs.Spelling as spec;

use crate::components::{add_path, is_plain_path, name_below};
use crate::limits::{is_absolute, is_path, is_word};
use crate::root::Root;
use mk_name::fault::{Fault, Halt, Kind, Source};
use mk_name::name::Name;
use std::alloc::{AllocError, Global};

/// The plain name of a word of a makefile, or of a goal (profile).
///
/// `BadName` with the word as it is written, where it is empty, has over 4,096 bytes, or holds a
/// control byte, a blank or one of `# $ : ; = \ % ( ) * ? [ " ' & |`. Its source is the makefile and
/// its place 0: the caller moves it by `Fault::at`.
pub fn plain_word(alloc: Global, word: &[u8], root: &Root) -> Result<Name, Halt>
    ensures { Gives result (spec.word_name root.now word.now) }
{
    if !is_word(word) {
        let fault = Fault::bad_name(alloc, Source::Makefile, word)?;
        return Err(Halt::Fault(fault));
    }
    Ok(plain_name(alloc, word, root)?)
}

/// The plain name of a path of a listing or of footprints (profile).
///
/// `BadName` without names, where the path is empty, has over 4,096 bytes, or holds NUL or a newline.
/// Its source is the makefile and its place 0: the caller moves it by `Fault::at`.
pub fn plain_path(alloc: Global, path: &[u8], root: &Root) -> Result<Name, Halt>
    ensures { Gives result (spec.path_name root.now path.now) }
{
    if !is_path(path) {
        let fault = Fault::unnamed(alloc, Kind::BadName, Source::Makefile, 0);
        return Err(Halt::Fault(fault));
    }
    Ok(plain_name(alloc, path, root)?)
}

/// The plain name of any bytes.
fn plain_name(alloc: Global, path: &[u8], root: &Root) -> Result<Name, AllocError>
    ensures { IfOk result (λ name. name ≡ spec.plain_name root.now path.now) }
{
    if is_plain_path(path) {
        return Ok(Name::from_bytes(Vec::from_slice(alloc, path)?));
    }
    let mut parts = Vec::new(alloc);
    if !is_absolute(path) {
        add_path(&mut parts, root.text())?;
    }
    add_path(&mut parts, path)?;
    name_below(alloc, root.parts(), parts.as_slice(), path.len())
}

/// The law of reduced components, by what stands at the end of a list: nothing gives nothing; an
/// empty component and `.` leave what is before them, `..` drops the last of it, and any other
/// follows it.
pub fn reduced_by_its_end()
    ensures nothing { spec.reduced [] ≡ [] }
    ensures empty { (parts : List (List ℕ)) → spec.reduced (parts ++ [] ∷ []) ≡ spec.reduced parts }
    ensures dot { (parts : List (List ℕ)) → spec.reduced (parts ++ codes "." ∷ []) ≡ spec.reduced parts }
    ensures dots { (parts : List (List ℕ))
        → spec.reduced (parts ++ codes ".." ∷ []) ≡ spec.without_last (spec.reduced parts) }
    ensures other { (parts : List (List ℕ)) (part : List ℕ) → spec.IsPlain part
        → spec.reduced (parts ++ part ∷ []) ≡ spec.reduced parts ++ part ∷ [] }
{}

/// No reduced list has an empty component, a `.` or a `..`.
pub fn reduced_is_plain()
    ensures { (parts : List (List ℕ)) → All spec.IsPlain (spec.reduced parts) }
{}
