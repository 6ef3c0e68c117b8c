//! How names and faults are shown.
ghost use Rattle.std.specs.Prelude.{◌≡◌, ◌++◌, IfOk, OnErr, OnOk, length, take};
ghost use Rattle.std.specs.List.{list_all};
ghost use Rattle.mk_name.specs.Shown as spec;

use crate::fault::{Fault, Kind, Source};
use crate::name::Name;
use std::alloc::{AllocError, Global};

const HEX_DIGITS: &[u8; 16] = b"0123456789abcdef";

/// Puts the shown form of a name at the end (profile): a visible ASCII byte that is no backslash and
/// a byte past ASCII stand for themselves, and any other is `\x` and two lower case hexadecimal
/// digits. The only error is out of memory, and then nothing is changed.
pub fn push_shown(out: &mut Vec<u8>, name: &[u8]) -> Result<(), AllocError>
    ensures shown { OnOk result (out.new.items ≡ out.old.items ++ spec.shown name.now) }
    ensures unchanged { OnErr result (out.new.items ≡ out.old.items) }
{
    if is_all_visible(name) {
        return out.extend_from_slice(name);
    }
    let length = out.len();
    let pushed = push_shown_bytes(out, name);
    if pushed.is_err() {
        out.truncate(length);
    }
    pushed
}

/// Puts the shown form of a name at the end, or a beginning of it where memory runs out.
fn push_shown_bytes(out: &mut Vec<u8>, name: &[u8]) -> Result<(), AllocError>
    ensures shown { OnOk result (out.new.items ≡ out.old.items ++ spec.shown name.now) }
    ensures behind { OnErr result (take (length out.old.items) out.new.items ≡ out.old.items) }
{
    for byte in name {
        push_shown_byte(out, *byte)?;
    }
    Ok(())
}

fn push_shown_byte(out: &mut Vec<u8>, byte: u8) -> Result<(), AllocError>
    ensures shown { OnOk result (out.new.items ≡ out.old.items ++ spec.shown_byte byte) }
    ensures unchanged { OnErr result (out.new.items ≡ out.old.items) }
{
    if is_visible(byte) {
        out.push(byte)?;
        return Ok(());
    }
    let high = HEX_DIGITS[usize::from(byte / 16)];
    let low = HEX_DIGITS[usize::from(byte % 16)];
    out.extend_from_slice(&[b'\\', b'x', high, low])
}

/// Whether the byte stands for itself.
fn is_visible(byte: u8) -> bool
    ensures { result ≡ spec.is_visible byte }
{
    matches!(byte, 0x21..=0x7e | 0x80..) && byte != b'\\'
}

/// Whether each byte stands for itself.
fn is_all_visible(name: &[u8]) -> bool
    ensures { result ≡ list_all spec.is_visible name.now }
{
    name.iter().all(|byte| is_visible(*byte))
}

/// The report of a fault (profile): the lines `refused`, its number and word, its source and place,
/// and one for each of its names. The only error is out of memory.
pub fn refused_report(alloc: Global, fault: &Fault) -> Result<Vec<u8>, AllocError>
    ensures { IfOk result (λ text. text.items ≡ spec.refused_text fault.now) }
{
    let mut out = Vec::from_slice(alloc, b"refused\n")?;
    push_kind(&mut out, alloc, fault.kind())?;
    push_place(&mut out, alloc, fault.source(), fault.place())?;
    for name in fault.names() {
        push_name_line(&mut out, name)?;
    }
    Ok(out)
}

fn push_kind(out: &mut Vec<u8>, alloc: Global, kind: Kind) -> Result<(), AllocError>
    ensures { OnOk result (out.new.items ≡ out.old.items ++ spec.kind_line kind) }
{
    let number = kind.number();
    let word = kind.word();
    let text = format!(in alloc; "F{number} {word}\n")?;
    out.extend_from_slice(text.as_bytes())
}

fn push_place(
    out: &mut Vec<u8>,
    alloc: Global,
    source: &Source,
    place: u64,
) -> Result<(), AllocError>
    ensures { OnOk result (out.new.items ≡ out.old.items ++ spec.place_line source.now place) }
{
    out.extend_from_slice(b"at ")?;
    push_source(out, source)?;
    let text = format!(in alloc; " {place}\n")?;
    out.extend_from_slice(text.as_bytes())
}

/// Puts the shown form of a source at the end: its word, and for the text that an include line names
/// `include:` and the shown name (profile). The only error is out of memory, and then nothing is
/// changed.
pub fn push_source(out: &mut Vec<u8>, source: &Source) -> Result<(), AllocError>
    ensures shown { OnOk result (out.new.items ≡ out.old.items ++ spec.source_text source.now) }
    ensures unchanged { OnErr result (out.new.items ≡ out.old.items) }
{
    let word = match source {
        Source::Settings => "settings",
        Source::Listing => "listing",
        Source::Base => "base",
        Source::Makefile => "makefile",
        Source::Graph => "graph",
        Source::Footprints => "footprints",
        Source::Jobs => "jobs",
        Source::Log => "log",
        Source::Proof => "proof",
        Source::Includes => "includes",
        Source::Tasks => "tasks",
        Source::Include(name) => return push_include(out, name),
    };
    out.extend_from_slice(word.as_bytes())
}

/// Puts `include:` and the shown form of a name at the end. The only error is out of memory, and then
/// nothing is changed.
fn push_include(out: &mut Vec<u8>, name: &Name) -> Result<(), AllocError>
    ensures shown { OnOk result (out.new.items ≡ out.old.items ++ spec.include_text name.now) }
    ensures unchanged { OnErr result (out.new.items ≡ out.old.items) }
{
    let length = out.len();
    out.extend_from_slice(b"include:")?;
    let pushed = push_shown(out, name.as_bytes());
    if pushed.is_err() {
        out.truncate(length);
    }
    pushed
}

fn push_name_line(out: &mut Vec<u8>, name: &Name) -> Result<(), AllocError>
    ensures { OnOk result (out.new.items ≡ out.old.items ++ spec.name_line name.now) }
{
    out.extend_from_slice(b"name ")?;
    push_shown(out, name.as_bytes())?;
    out.push(b'\n')?;
    Ok(())
}
