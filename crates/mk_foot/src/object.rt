//! Lines of JSON: what footprints, tasks and logs are written in.
ghost use Rattle.std.specs.Prelude.{◌≡◌, IfOk};
ghost use Rattle.mk_foot.specs.Json as spec;
ghost use Rattle.mk_json.specs.Documents.{data_of};

use mk_json::Document;
use mk_name::fault::Halt;
use mk_name::name::Name;
use mk_text::root::Root;
use mk_text::spelling::plain_path;
use std::alloc::{AllocError, Global};

/// Whether a line has no byte but spaces, tabs and carriage returns: such a line is passed over.
pub fn is_blank(text: &[u8]) -> bool
    ensures { result ≡ spec.is_blank text.now }
{
    text.iter()
        .all(|byte| *byte == b' ' || *byte == b'\t' || *byte == b'\r')
}

/// The name that a text spells, if it is a path. The only error is out of memory.
pub fn name_in(alloc: Global, text: &str, root: &Root) -> Result<Option<Name>, AllocError>
    ensures { IfOk result (λ name. name ≡ spec.path_named root.now text.now) }
{
    match plain_path(alloc, text.as_bytes(), root) {
        Ok(name) => Ok(Some(name)),
        Err(Halt::Fault(_)) => Ok(None),
        Err(Halt::Memory) => Err(AllocError),
    }
}

/// The name that the path under a key of an object spells; nothing where there is no such key, or no path under it. The
/// only error is out of memory.
pub fn path_under(
    alloc: Global,
    object: &Document<'_>,
    key: &str,
    root: &Root,
) -> Result<Option<Name>, AllocError>
    ensures { IfOk result (λ name. name ≡ spec.path_under root.now key.now (data_of object.now)) }
{
    match object.text(key) {
        Some(text) => name_in(alloc, text, root),
        None => Ok(None),
    }
}
