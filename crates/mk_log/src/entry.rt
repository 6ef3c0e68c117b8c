//! One line of a log: a file of the opening store, or an event, as an object of JSON.
ghost use Rattle.std.specs.Prelude.{◌≡◌, IfOk, option_and_then};
ghost use Rattle.std.specs.List.{list_any};
ghost use Rattle.mk_foot.specs.Json as lines;
ghost use Rattle.mk_json.specs.Documents.{data_of};
ghost use Rattle.mk_log.specs.Entries as spec;

use crate::nodes::Nodes;
use hex::FromHexError;
use mk_foot::object::path_under;
use mk_json::{Document, Scratch};
use mk_name::name::Name;
use mk_sched::contents::Contents;
use mk_sched::event::Event;
use mk_text::root::Root;
use std::alloc::{AllocError, Global};

/// What a line of a log says.
#[derive(Debug, Drop)]
pub(crate) enum Entry {
    /// A file of the opening store: its name, what it holds and when it was written.
    Holds(Name, Contents, u64),
    /// What then happened.
    Happens(Event),
}

/// Whether there is a capital letter.
fn has_capital(text: &[u8]) -> bool
    ensures { result ≡ list_any spec.is_capital text.now }
{
    text.iter().any(|byte| byte.is_ascii_uppercase())
}

/// The bytes that a text spells in hexadecimal, two digits each, none of them a capital letter.
fn bytes_in(alloc: Global, text: &str) -> Result<Option<Contents>, AllocError>
    ensures { IfOk result (λ contents. contents ≡ spec.bytes_in text.now) }
{
    if has_capital(text.as_bytes()) {
        return Ok(None);
    }
    match hex::decode(alloc, text) {
        Ok(bytes) => Ok(Some(Contents::from_bytes(bytes))),
        Err(FromHexError::OutOfMemory) => Err(AllocError),
        Err(_) => Ok(None),
    }
}

/// The bytes under the key `bytes`.
fn bytes_under(alloc: Global, object: &Document<'_>) -> Result<Option<Contents>, AllocError>
    ensures { IfOk result (λ contents. contents ≡ spec.bytes_under (data_of object.now)) }
{
    match object.text("bytes") {
        Some(text) => bytes_in(alloc, text),
        None => Ok(None),
    }
}

/// What a look saw, by the key `bytes`: bytes, or that the file is absent.
fn seen_under(alloc: Global, object: &Document<'_>) -> Result<Option<Option<Contents>>, AllocError>
    ensures { IfOk result (λ seen. seen ≡ spec.seen_under (data_of object.now)) }
{
    match object.text("bytes") {
        Some(text) => Ok(bytes_in(alloc, text)?.map(Some)),
        None if object.is_null("bytes") => Ok(Some(None)),
        None => Ok(None),
    }
}

/// The time under the key `time`.
fn time_under(object: &Document<'_>) -> Option<u64>
    ensures { result ≡ spec.time_under (data_of object.now) }
{
    object.whole("time")
}

/// The number of the node whose name stands under the key `node`.
fn node_under(
    alloc: Global,
    object: &Document<'_>,
    nodes: &mut Nodes<'_>,
) -> Result<Option<u32>, AllocError>
    ensures node { IfOk result (λ node.
        node ≡ spec.node_under nodes.old.jobs nodes.old.root (data_of object.now)) }
    ensures keeps { nodes.new ≡ nodes.old }
{
    match object.text("node") {
        Some(text) => nodes.number(alloc, text),
        None => Ok(None),
    }
}

/// A file of the opening store.
fn file_in(alloc: Global, object: &Document<'_>, root: &Root) -> Result<Option<Entry>, AllocError>
    ensures { IfOk result (λ entry. entry ≡ spec.file_in root.now (data_of object.now)) }
{
    let Some(path) = path_under(alloc, object, "path", root)? else {
        return Ok(None);
    };
    let Some(contents) = bytes_under(alloc, object)? else {
        return Ok(None);
    };
    let Some(time) = time_under(object) else {
        return Ok(None);
    };
    Ok(Some(Entry::Holds(path, contents, time)))
}

/// The look of a node at a path.
fn look_in(
    alloc: Global,
    node: u32,
    path: Name,
    object: &Document<'_>,
) -> Result<Option<Event>, AllocError>
    ensures { IfOk result (λ event. event ≡ spec.look_in node path (data_of object.now)) }
{
    match seen_under(alloc, object)? {
        Some(seen) => Ok(Some(Event::Look(node, path, seen))),
        None => Ok(None),
    }
}

/// The put of a node at a path.
fn put_in(
    alloc: Global,
    node: u32,
    path: Name,
    object: &Document<'_>,
) -> Result<Option<Event>, AllocError>
    ensures { IfOk result (λ event. event ≡ spec.put_in node path (data_of object.now)) }
{
    let Some(contents) = bytes_under(alloc, object)? else {
        return Ok(None);
    };
    let Some(time) = time_under(object) else {
        return Ok(None);
    };
    Ok(Some(Event::Put(node, path, contents, time)))
}

/// What a node does to a path, by the word for it.
fn touch_by(
    alloc: Global,
    word: &str,
    node: u32,
    path: Name,
    object: &Document<'_>,
) -> Result<Option<Event>, AllocError>
    ensures { IfOk result (λ event. event ≡ spec.touch_by word.now node path (data_of object.now)) }
{
    match word {
        "look" => look_in(alloc, node, path, object),
        "put" => put_in(alloc, node, path, object),
        "erase" => Ok(Some(Event::Erase(node, path))),
        _ => Ok(None),
    }
}

/// What a node does, by the word for it.
fn event_by(
    alloc: Global,
    word: &str,
    node: u32,
    object: &Document<'_>,
    root: &Root,
) -> Result<Option<Event>, AllocError>
    ensures { IfOk result (λ event. event ≡ spec.event_by word.now root.now node (data_of object.now)) }
{
    match word {
        "skip" => Ok(Some(Event::Skip(node))),
        "start" => Ok(Some(Event::Start(node))),
        "finish" => Ok(Some(Event::Finish(node))),
        _ => match path_under(alloc, object, "path", root)? {
            Some(path) => touch_by(alloc, word, node, path, object),
            None => Ok(None),
        },
    }
}

/// The event that an object says, by the word for it.
fn event_in(
    alloc: Global,
    word: &str,
    object: &Document<'_>,
    nodes: &mut Nodes<'_>,
) -> Result<Option<Event>, AllocError>
    ensures event { IfOk result (λ event.
        event ≡ spec.event_in word.now nodes.old.jobs nodes.old.root (data_of object.now)) }
    ensures keeps { nodes.new ≡ nodes.old }
{
    match node_under(alloc, object, nodes)? {
        Some(node) => event_by(alloc, word, node, object, nodes.root()),
        None => Ok(None),
    }
}

/// What an object says, by the word under its key `do`.
fn entry_in(
    alloc: Global,
    object: &Document<'_>,
    nodes: &mut Nodes<'_>,
) -> Result<Option<Entry>, AllocError>
    ensures entry { IfOk result (λ entry.
        entry ≡ spec.entry_in nodes.old.jobs nodes.old.root (data_of object.now)) }
    ensures keeps { nodes.new ≡ nodes.old }
{
    let Some(word) = object.text("do") else {
        return Ok(None);
    };
    if word == "file" {
        return file_in(alloc, object, nodes.root());
    }
    match event_in(alloc, word, object, nodes)? {
        Some(event) => Ok(Some(Entry::Happens(event))),
        None => Ok(None),
    }
}

/// The entry of a text that is not blank; none where it is bad. The only error is out of memory.
pub(crate) fn entry_of(
    alloc: Global,
    text: &[u8],
    scratch: &mut Scratch,
    nodes: &mut Nodes<'_>,
) -> Result<Option<Entry>, AllocError>
    ensures entry { IfOk result (λ entry. entry
        ≡ option_and_then (spec.entry_in nodes.old.jobs nodes.old.root) (lines.value_of text.now)) }
    ensures keeps { nodes.new ≡ nodes.old }
{
    match Document::read(alloc, text, scratch)? {
        Some(object) => entry_in(alloc, &object, nodes),
        None => Ok(None),
    }
}
