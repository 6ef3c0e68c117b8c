//! One line of footprints: what the recipe of a target reads and writes, as an object of JSON.
ghost use Rattle.std.specs.Prelude.{◌≡◌, IfOk, option_and_then, option_map};
ghost use Rattle.mk_json.specs.Documents.{data_in, data_of, items_in};
ghost use Rattle.mk_foot.specs.Json.{value_of};
ghost use Rattle.mk_foot.specs.Lines as spec;

use crate::object::{name_in, path_under};
use json::Value;
use mk_json::members::text_in;
use mk_json::{Document, Scratch};
use mk_name::name::Name;
use mk_path::path::Path;
use mk_text::root::Root;
use std::alloc::{AllocError, Global};
use std::marker::Model;

/// What a line says: a target, and the paths that its recipe reads and writes, as they stand there.
#[derive(Debug, Drop)]
pub(crate) struct FootprintLine {
    pub(crate) target: Name,
    pub(crate) reads: Vec<Path>,
    pub(crate) writes: Vec<Path>,
}

impl Model for FootprintLine {
    ghost use Rattle.mk_jobs.specs.Shape.{AreNamed};
    ghost use Rattle.mk_foot.specs.Lines as spec;

    ghost Value = { spec.FootprintLine };

    ghost view = { λ a. record {
      target = a.target;
      reads = a.reads.items;
      writes = a.writes.items;
    } };

    ghost invariant = { λ a. AreNamed a.reads.items × AreNamed a.writes.items };
}

/// Whether the last byte is a slash.
fn ends_in_slash(text: &[u8]) -> bool
    ensures { result ≡ spec.ends_in_slash text.now }
{
    text.last() == Some(&b'/')
}

/// The path of a value, if it is a text that spells one.
fn path_of(alloc: Global, value: &Value<'_>, root: &Root) -> Result<Option<Path>, AllocError>
    ensures { IfOk result (λ path. path ≡ spec.path_of root.now (data_in value.now)) }
{
    let Some(text) = text_in(value) else {
        return Ok(None);
    };
    match name_in(alloc, text, root)? {
        Some(name) => Ok(Some(Path {
            name,
            tree: ends_in_slash(text.as_bytes()),
        })),
        None => Ok(None),
    }
}

/// The paths of a list, if each of its items is one.
fn paths_in(
    alloc: Global,
    values: &[Value<'_>],
    root: &Root,
) -> Result<Option<Vec<Path>>, AllocError>
    ensures { IfOk result (λ paths.
        option_map (λ list. list.items) paths ≡ spec.paths_in root.now (items_in values.now)) }
{
    let mut paths = Vec::with_capacity(alloc, values.len())?;
    for value in values {
        match path_of(alloc, value, root)? {
            Some(path) => paths.push(path)?,
            None => return Ok(None),
        }
    }
    Ok(Some(paths))
}

/// The paths of the list under a key of an object; nothing where there is no such key, no list under it, or an item that is
/// no text that spells a path. A final `/` makes a tree of it. The only error is out of memory.
pub fn paths_under(
    alloc: Global,
    object: &Document<'_>,
    key: &str,
    root: &Root,
) -> Result<Option<Vec<Path>>, AllocError>
    ensures { IfOk result (λ paths.
        option_map (λ list. list.items) paths ≡ spec.paths_under root.now key.now (data_of object.now)) }
{
    match object.items(key) {
        Some(values) => paths_in(alloc, values, root),
        None => Ok(None),
    }
}

/// The line that an object says.
fn line_in(
    alloc: Global,
    object: &Document<'_>,
    root: &Root,
) -> Result<Option<FootprintLine>, AllocError>
    ensures { IfOk result (λ line. line ≡ spec.line_in root.now (data_of object.now)) }
{
    let Some(target) = path_under(alloc, object, "target", root)? else {
        return Ok(None);
    };
    let Some(reads) = paths_under(alloc, object, "reads", root)? else {
        return Ok(None);
    };
    let Some(writes) = paths_under(alloc, object, "writes", root)? else {
        return Ok(None);
    };
    Ok(Some(FootprintLine {
        target,
        reads,
        writes,
    }))
}

/// The line of a text that is not blank; none where it is bad.
pub(crate) fn line_of(
    alloc: Global,
    text: &[u8],
    scratch: &mut Scratch,
    root: &Root,
) -> Result<Option<FootprintLine>, AllocError>
    ensures { IfOk result (λ line. line ≡ option_and_then (spec.line_in root.now) (value_of text.now)) }
{
    match Document::read(alloc, text, scratch)? {
        Some(object) => line_in(alloc, &object, root),
        None => Ok(None),
    }
}
