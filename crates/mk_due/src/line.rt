//! One line of tasks that may say when its task is due: the file that it makes, and the files that make it run.
ghost use Rattle.std.specs.Prelude.{◌≡◌, IfOk, option_map};
ghost use Rattle.std.specs.Prelude.{option_and_then};
ghost use Rattle.serde_json.specs.Find.{as_str};
ghost use Rattle.mk_foot.specs.Json.{path_named};
ghost use Rattle.mk_json.specs.Documents.{data_in, data_of, items_in};
ghost use Rattle.mk_due.specs.Lines as spec;

use json::Value;
use mk_foot::object::{name_in, path_under};
use mk_json::members::text_in;
use mk_json::{Document, Scratch};
use mk_name::name::Name;
use mk_task::line as tasks;
use mk_text::root::Root;
use std::alloc::{AllocError, Global};
use std::marker::Model;

/// The file that a task makes, and the files that make it run where they are newer or absent.
#[derive(Debug, Drop)]
pub(crate) struct Due {
    pub(crate) makes: Name,
    pub(crate) needs: Vec<Name>,
}

impl Model for Due {
    ghost use Rattle.mk_due.specs.Lines as spec;

    ghost Value = { spec.Due };

    ghost view = { λ a. record { makes = a.makes; needs = a.needs.items } };
}

/// What a line says: what each line of tasks does, and when its task is due, unless that always runs.
#[derive(Debug, Drop)]
pub(crate) struct DueLine {
    pub(crate) task: tasks::TaskLine,
    pub(crate) due: Option<Due>,
}

impl Model for DueLine {
    ghost use Rattle.mk_due.specs.Lines as spec;

    ghost Value = { spec.DueLine };

    ghost view = { λ a. record { task = a.task; due = a.due } };
}

/// The name that a value spells, if it is a text that does.
fn name_of(alloc: Global, value: &Value<'_>, root: &Root) -> Result<Option<Name>, AllocError>
    ensures { IfOk result (λ name.
        name ≡ option_and_then (path_named root.now) (as_str (data_in value.now))) }
{
    match text_in(value) {
        Some(text) => name_in(alloc, text, root),
        None => Ok(None),
    }
}

/// The names that the values of a list spell, if each of them is such a text.
fn names_in(
    alloc: Global,
    values: &[Value<'_>],
    root: &Root,
) -> Result<Option<Vec<Name>>, AllocError>
    ensures { IfOk result (λ names.
        option_map (λ list. list.items) names ≡ spec.names_in root.now (items_in values.now)) }
{
    let mut names = Vec::with_capacity(alloc, values.len())?;
    for value in values {
        match name_of(alloc, value, root)? {
            Some(name) => names.push(name)?,
            None => return Ok(None),
        }
    }
    Ok(Some(names))
}

/// The names of the list under a key.
fn names_under(
    alloc: Global,
    object: &Document<'_>,
    key: &str,
    root: &Root,
) -> Result<Option<Vec<Name>>, AllocError>
    ensures { IfOk result (λ names.
        option_map (λ list. list.items) names ≡ spec.names_under root.now key.now (data_of object.now)) }
{
    match object.items(key) {
        Some(values) => names_in(alloc, values, root),
        None => Ok(None),
    }
}

/// Whether an object has a key.
fn has_key(object: &Document<'_>, key: &str) -> bool
    ensures { result ≡ spec.has_key key.now (data_of object.now) }
{
    object.value.get(key).is_some()
}

/// What the two keys say together.
fn due_under(alloc: Global, object: &Document<'_>, root: &Root) -> Result<Option<Due>, AllocError>
    ensures { IfOk result (λ due. due ≡ spec.due_under root.now (data_of object.now)) }
{
    let Some(makes) = path_under(alloc, object, "makes", root)? else {
        return Ok(None);
    };
    match names_under(alloc, object, "needs", root)? {
        Some(needs) => Ok(Some(Due { makes, needs })),
        None => Ok(None),
    }
}

/// When the task of an object is due; nothing where what its keys say is bad.
fn due_in(
    alloc: Global,
    object: &Document<'_>,
    root: &Root,
) -> Result<Option<Option<Due>>, AllocError>
    ensures { IfOk result (λ due. due ≡ spec.due_in root.now (data_of object.now)) }
{
    if !has_key(object, "makes") && !has_key(object, "needs") {
        return Ok(Some(None));
    }
    match due_under(alloc, object, root)? {
        Some(due) => Ok(Some(Some(due))),
        None => Ok(None),
    }
}

/// The line that an object says.
fn line_in(alloc: Global, object: &Document<'_>, root: &Root) -> Result<Option<DueLine>, AllocError>
    ensures { IfOk result (λ line. line ≡ spec.line_in root.now (data_of object.now)) }
{
    let Some(task) = tasks::line_in(alloc, object, root)? else {
        return Ok(None);
    };
    match due_in(alloc, object, root)? {
        Some(due) => Ok(Some(DueLine { task, due })),
        None => Ok(None),
    }
}

/// The line of a text that is not blank; none where it is bad.
pub(crate) fn line_of(
    alloc: Global,
    text: &[u8],
    scratch: &mut Scratch,
    root: &Root,
) -> Result<Option<DueLine>, AllocError>
    ensures { IfOk result (λ line. line ≡ spec.line_of root.now text.now) }
{
    match Document::read(alloc, text, scratch)? {
        Some(object) => line_in(alloc, &object, root),
        None => Ok(None),
    }
}
