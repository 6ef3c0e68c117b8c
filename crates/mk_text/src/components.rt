//! The components of paths, reduced on a stack of slices.
ghost use Rattle.std.specs.Prelude.{◌≡◌, ◌++◌, ◌∷◌, List, ℕ, map, fold, length, IfOk, OnOk, Option};
ghost use Rattle.std.specs.Option.{option_map};
ghost use Rattle.std.specs.List.{join_with_byte, list_all};
ghost use Rattle.mk_text.specs.Spelling.{components, is_plain, one_more, reduced, below, name_of};

use mk_name::name::Name;
use std::alloc::{AllocError, Global};

/// Puts one more component at the end of a reduced list.
fn add<'a>(parts: &mut Vec<&'a [u8]>, part: &'a [u8]) -> Result<(), AllocError>
    ensures { let before = map (λ x. x.now) parts.old.items in
        OnOk result (map (λ x. x.now) parts.new.items ≡ one_more before part.now) }
{
    if part.is_empty() || part == b".".as_slice() {
        return Ok(());
    }
    if part == b"..".as_slice() {
        parts.pop();
    } else {
        parts.push(part)?;
    }
    Ok(())
}

/// Whether each component of the path stands for itself: none is empty, `.` or `..`.
pub fn is_plain_path(path: &[u8]) -> bool
    ensures { result ≡ list_all is_plain (components path.now) }
{
    path.split(|byte| *byte == b'/').all(is_plain_part)
}

fn is_plain_part(part: &[u8]) -> bool
    ensures { result ≡ is_plain part.now }
{
    !part.is_empty() && part != b".".as_slice() && part != b"..".as_slice()
}

/// Puts the components of the path, from the left, at the end of a reduced list.
pub fn add_path<'a>(parts: &mut Vec<&'a [u8]>, path: &'a [u8]) -> Result<(), AllocError>
    ensures { let before = map (λ x. x.now) parts.old.items in
        OnOk result (map (λ x. x.now) parts.new.items ≡ fold one_more before (components path.now)) }
{
    for part in path.split(|byte| *byte == b'/') {
        add(parts, part)?;
    }
    Ok(())
}

/// What follows the root's components, where the others begin with them.
fn rest_below<'a, 'b>(root: &[Vec<u8>], parts: &'b [&'a [u8]]) -> Option<&'b [&'a [u8]]>
    ensures { option_map (λ rest. map (λ x. x.now) rest.now) result
        ≡ below (map (λ part. part.items) root.now) (map (λ x. x.now) parts.now) }
{
    for (i, part) in root.iter().enumerate() {
        let Some(other) = parts.get(i) else {
            return None;
        };
        if part.as_slice() != *other {
            return None;
        }
    }
    Some(&parts[root.len()..])
}

/// Puts the components, with one slash between each two, at the end of the bytes.
fn join(bytes: &mut Vec<u8>, parts: &[&[u8]]) -> Result<(), AllocError>
    ensures { let joined = join_with_byte 47 (map (λ x. x.now) parts.now) in
        OnOk result (bytes.new.items ≡ bytes.old.items ++ joined) }
{
    let Some((first, others)) = parts.split_first() else {
        return Ok(());
    };
    bytes.extend_from_slice(first)?;
    for part in others {
        bytes.push(b'/')?;
        bytes.extend_from_slice(part)?;
    }
    Ok(())
}

/// The components, spelled from the top: a slash, and then the components with one slash between each two.
/// Room for `size` bytes is made at first.
pub fn from_top(alloc: Global, parts: &[&[u8]], size: usize) -> Result<Vec<u8>, AllocError>
    ensures { let joined = join_with_byte 47 (map (λ x. x.now) parts.now) in
        IfOk result (λ bytes. bytes.items ≡ 47 ∷ joined) }
{
    let mut bytes = Vec::with_capacity(alloc, size)?;
    bytes.push(b'/')?;
    join(&mut bytes, parts)?;
    Ok(bytes)
}

/// The name read off a reduced list of components, below the root with this reduced list.
/// Room for `size` bytes is made at first.
pub fn name_below(
    alloc: Global,
    root: &[Vec<u8>],
    parts: &[&[u8]],
    size: usize,
) -> Result<Name, AllocError>
    ensures { let below = map (λ part. part.items) root.now in
        IfOk result (λ name. name ≡ name_of below (map (λ x. x.now) parts.now)) }
{
    let mut bytes = Vec::with_capacity(alloc, size)?;
    match rest_below(root, parts) {
        Some([]) => bytes.push(b'.')?,
        Some(rest) => join(&mut bytes, rest)?,
        None => {
            bytes.push(b'/')?;
            join(&mut bytes, parts)?;
        }
    }
    Ok(Name::from_bytes(bytes))
}

/// Copies of the components.
pub fn copies(alloc: Global, parts: &[&[u8]]) -> Result<Vec<Vec<u8>>, AllocError>
    ensures { IfOk result (λ all. map (λ part. part.items) all.items ≡ map (λ x. x.now) parts.now) }
{
    let mut all = Vec::with_capacity(alloc, parts.len())?;
    for part in parts {
        all.push(Vec::from_slice(alloc, part)?)?;
    }
    Ok(all)
}
