//! One line of tasks: a label, what it stands behind, and what it reads and writes, as an object of JSON.
ghost use Rattle.std.specs.Prelude.{◌≡◌, ◌∷◌, IfOk, option_and_then, option_map};
ghost use Rattle.std.specs.List.{list_any};
ghost use Rattle.mk_foot.specs.Lines as paths;
ghost use Rattle.mk_json.specs.Documents.{data_in, data_of, items_in};
ghost use Rattle.mk_task.specs.Lines as spec;

use json::Value;
use mk_foot::line::paths_under;
use mk_json::members::text_in;
use mk_json::{Document, Scratch};
use mk_name::name::Name;
use mk_path::path::Path;
use mk_text::root::Root;
use std::alloc::{AllocError, Global};
use std::marker::Model;

/// How many bytes a label may have.
const LABEL_LIMIT: usize = 4096;

/// What a line says: a label, the labels that it stands behind, and the paths that it reads and writes, as they stand there.
#[derive(Debug, Drop)]
pub struct TaskLine {
    pub label: Name,
    pub after: Vec<Name>,
    pub reads: Vec<Path>,
    pub writes: Vec<Path>,
}

impl Model for TaskLine {
    ghost use Rattle.mk_task.specs.Lines as spec;

    ghost Value = { spec.TaskLine };

    ghost view = { λ a. record {
      label = a.label;
      after = a.after.items;
      reads = a.reads.items;
      writes = a.writes.items;
    } };
}

/// The label that a text is, if it has one to 4,096 bytes.
fn label_in(alloc: Global, text: &str) -> Result<Option<Name>, AllocError>
    ensures { IfOk result (λ label. label ≡ spec.label_in text.now) }
{
    let bytes = text.as_bytes();
    if bytes.is_empty() || bytes.len() > LABEL_LIMIT {
        return Ok(None);
    }
    Ok(Some(Name::from_bytes(Vec::from_slice(alloc, bytes)?)))
}

/// The label of a value, if it is such a text.
fn label_of(alloc: Global, value: &Value<'_>) -> Result<Option<Name>, AllocError>
    ensures { IfOk result (λ label. label ≡ spec.label_of (data_in value.now)) }
{
    match text_in(value) {
        Some(text) => label_in(alloc, text),
        None => Ok(None),
    }
}

/// The labels of a list, if each of its items is one.
fn labels_in(alloc: Global, values: &[Value<'_>]) -> Result<Option<Vec<Name>>, AllocError>
    ensures { IfOk result (λ labels.
        option_map (λ list. list.items) labels ≡ spec.labels_in (items_in values.now)) }
{
    let mut labels = Vec::new(alloc);
    for value in values {
        match label_of(alloc, value)? {
            Some(label) => labels.push(label)?,
            None => return Ok(None),
        }
    }
    Ok(Some(labels))
}

/// The label under the key `task`.
fn own_label(alloc: Global, object: &Document<'_>) -> Result<Option<Name>, AllocError>
    ensures { IfOk result (λ label. label ≡ option_and_then spec.label_of (spec.under_task (data_of object.now))) }
{
    match object.text("task") {
        Some(text) => label_in(alloc, text),
        None => Ok(None),
    }
}

/// The labels of the list under the key `after`.
fn labels_after(alloc: Global, object: &Document<'_>) -> Result<Option<Vec<Name>>, AllocError>
    ensures { IfOk result (λ labels. option_map (λ list. list.items) labels
        ≡ option_and_then spec.labels_in (spec.under_after (data_of object.now))) }
{
    match object.items("after") {
        Some(values) => labels_in(alloc, values),
        None => Ok(None),
    }
}

/// Whether a path is the tree of everything.
fn is_everything(path: &Path) -> bool
    ensures { result ≡ spec.is_everything path.now }
{
    path.tree && path.name.as_bytes() == b"/".as_slice()
}

/// Whether one of these paths is the tree of everything.
fn has_everything(paths: &[Path]) -> bool
    ensures { result ≡ list_any spec.is_everything paths.now }
{
    paths.iter().any(|path| is_everything(path))
}

/// The paths of the list under the key `writes`, if none is the tree of everything.
fn writes_in(
    alloc: Global,
    object: &Document<'_>,
    root: &Root,
) -> Result<Option<Vec<Path>>, AllocError>
    ensures { IfOk result (λ paths. option_map (λ list. list.items) paths
        ≡ option_and_then spec.less_than_everything (spec.under_writes root.now (data_of object.now))) }
{
    let Some(writes) = paths_under(alloc, object, "writes", root)? else {
        return Ok(None);
    };
    if has_everything(&writes) {
        return Ok(None);
    }
    Ok(Some(writes))
}

/// The line that an object says; none where it is bad. Other keys mean nothing. The only error is out of memory.
pub fn line_in(
    alloc: Global,
    object: &Document<'_>,
    root: &Root,
) -> Result<Option<TaskLine>, AllocError>
    ensures { IfOk result (λ line. line ≡ spec.line_in root.now (data_of object.now)) }
{
    let Some(label) = own_label(alloc, object)? else {
        return Ok(None);
    };
    let Some(after) = labels_after(alloc, object)? else {
        return Ok(None);
    };
    let Some(reads) = paths_under(alloc, object, "reads", root)? else {
        return Ok(None);
    };
    let Some(writes) = writes_in(alloc, object, root)? else {
        return Ok(None);
    };
    Ok(Some(TaskLine {
        label,
        after,
        reads,
        writes,
    }))
}

/// The line of a text that is not blank; none where it is bad.
pub(crate) fn line_of(
    alloc: Global,
    text: &[u8],
    scratch: &mut Scratch,
    root: &Root,
) -> Result<Option<TaskLine>, AllocError>
    ensures { IfOk result (λ line. line ≡ spec.line_of root.now text.now) }
{
    match Document::read(alloc, text, scratch)? {
        Some(object) => line_in(alloc, &object, root),
        None => Ok(None),
    }
}
