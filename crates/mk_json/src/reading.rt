//! From a text of JSON to the document.
ghost use Rattle.std.specs.Prelude.{◌≡◌, None, IfOk, if◌then◌else◌, option_and_then, option_map};
ghost use Rattle.std.specs.Str.{is_utf8};
ghost use Rattle.json.specs.Json.{if_last, value};
ghost use Rattle.json.specs.Lex.{tokens};
ghost use Rattle.json.specs.Value.{value_view};
ghost use Rattle.serde_json.specs.Read.{max_depth, of_json, read as read_text};
ghost use Rattle.mk_json.specs.Documents.{data_of};

use crate::document::Document;
use crate::meaning::is_meant;
use json::{Error, Reader, Scratch, Value};
use std::alloc::{AllocError, Global};

/// How deep arrays and objects may nest, as `serde_json` reads them.
const MAX_DEPTH: usize = 127;

impl<'a> Document<'a> {
    /// Reads a text; nothing where it is no JSON, or no UTF-8. Texts with escapes are kept in the scratch, which grows to the
    /// length of the text and is as good for the next one. The only error is out of memory.
    pub fn read(
        alloc: Global,
        text: &'a [u8],
        scratch: &'a mut Scratch,
    ) -> Result<Option<Document<'a>>, AllocError>
        ensures { IfOk result (λ document.
            option_map data_of document ≡ (if is_utf8 text.now then read_text text.now else None)) }
    {
        match str::from_utf8(text) {
            Ok(text) => document_in(alloc, text, scratch),
            Err(_) => Ok(None),
        }
    }
}

/// The document that a text is. The only error is out of memory.
fn document_in<'a>(
    alloc: Global,
    text: &'a str,
    scratch: &'a mut Scratch,
) -> Result<Option<Document<'a>>, AllocError>
    ensures { IfOk result (λ document. option_map data_of document ≡ read_text text.now) }
{
    match value_in(alloc, text, scratch)? {
        Some(value) => Ok(document_of(value)),
        None => Ok(None),
    }
}

/// The document of a value, if each number in it has a value.
fn document_of(value: Value<'_>) -> Option<Document<'_>>
    ensures { option_map data_of result ≡ of_json (value_view value.entry) }
{
    if is_meant(&value) {
        Some(Document { value })
    } else {
        None
    }
}

/// The value that a text is, if it is one and nests no deeper than `MAX_DEPTH`. The only error is out of memory.
fn value_in<'a>(
    alloc: Global,
    text: &'a str,
    scratch: &'a mut Scratch,
) -> Result<Option<Value<'a>>, AllocError>
    ensures { IfOk result (λ found. option_map (λ v. value_view v) found
        ≡ option_and_then (λ read. if_last read.0 read.1) (value max_depth (tokens text.now))) }
{
    let mut reader = Reader::new(text, scratch)?;
    match Value::read(alloc, &mut reader, MAX_DEPTH) {
        Ok(value) => Ok(if reader.next().is_some() {
            None
        } else {
            Some(value)
        }),
        Err(Error::OutOfMemory) => Err(AllocError),
        Err(_) => Ok(None),
    }
}
