//! How paths are spelled: the name, and a slash behind it for a tree (profile).
ghost use Rattle.std.specs.Prelude.{◌≡◌, ◌↔◌, IfOk, IsTrue};
ghost use Rattle.mk_path.specs.Texts.{text_of};

use crate::path::Path;
use std::alloc::{AllocError, Global};

/// The spelling of a path. The only error is out of memory.
pub fn text_of(alloc: Global, path: &Path) -> Result<Vec<u8>, AllocError>
    ensures { IfOk result (λ text. text.items ≡ text_of path.now) }
{
    let mut text = Vec::from_slice(alloc, path.name.as_bytes())?;
    if path.tree {
        text.push(b'/')?;
    }
    Ok(text)
}

/// Whether a text spells a path. It takes no memory.
pub fn is_text_of(path: &Path, text: &[u8]) -> bool
    ensures { IsTrue result ↔ (text_of path.now ≡ text.now) }
{
    if !path.tree {
        return path.name.as_bytes() == text;
    }
    match text.strip_suffix(b"/") {
        Some(name) => path.name.as_bytes() == name,
        None => false,
    }
}
