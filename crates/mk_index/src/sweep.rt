//! One sweep over paths in order, which finds the innermost tree that each name spells before a slash. The trees whose names
//! the name at hand begins with are open, the innermost on top of a stack.
ghost use Rattle.std.specs.Prelude.{ℕ, ◌≡◌, ◌<◌, ◌+◌, ◌-◌, ◌↔◌, [], ◌∷◌, IfNone, IfOk, IfSome, IsTrue, List, OnOk, get_or, length, map, reverse, take};
ghost use Rattle.mk_path.specs.Paths.{path_at};
ghost use Rattle.mk_index.specs.Nearest.{ArePaths, FindsTree, IsInner};
ghost use Rattle.mk_index.specs.Sweep.{AreOpen, BeginsWithTop, IsStackAt, KeepsBegins};

use mk_path::path::Path;
use std::alloc::AllocError;

/// An open tree: its number, and the innermost tree that its name spells before a slash.
#[derive(Clone, Copy, Debug)]
pub struct Open {
    pub tree: u32,
    pub inner: Option<u32>,
}

/// The innermost open tree.
fn innermost(stack: &[Open]) -> Option<Open>
    ensures some { IfSome result (λ top. reverse stack.now ≡ top ∷ reverse (take (length stack.now - 1) stack.now)) }
    ensures none { IfNone result (stack.now ≡ []) }
{
    match stack.last() {
        Some(top) => Some(*top),
        None => None,
    }
}

/// Lets the trees go that a name does not begin with.
fn close(paths: &[&Path], stack: &mut Vec<Open>, name: &[u8])
    requires are { AreOpen (map (λ path. path.now) paths.now) (reverse stack.old.items) }
    requires begins { KeepsBegins (map (λ path. path.now) paths.now) name.now (reverse stack.old.items) }
    ensures are { AreOpen (map (λ path. path.now) paths.now) (reverse stack.new.items) }
    ensures begins { KeepsBegins (map (λ path. path.now) paths.now) name.now (reverse stack.new.items) }
    ensures top { BeginsWithTop (map (λ path. path.now) paths.now) name.now (reverse stack.new.items) }
{
    while let Some(top) = innermost(stack) {
        if name.starts_with(paths[top.tree as usize].name.as_bytes()) {
            return;
        }
        stack.pop();
    }
}

/// Whether a slash stands at this place of a text, which is not its first.
fn has_slash(text: &[u8], place: usize) -> bool
    ensures { IsTrue result ↔ ((0 < place) × (place < length text.now) × (get_or text.now place 0 ≡ 47)) }
{
    0 < place && place < text.len() && text[place] == b'/'
}

/// The innermost tree that a name spells before a slash, by the open trees, with all of which it begins: the top, if a slash
/// stands behind that in the name, and else what the name of the top spells.
fn inner_of(paths: &[&Path], stack: &[Open], name: &[u8]) -> Option<u32>
    requires are { AreOpen (map (λ path. path.now) paths.now) (reverse stack.now) }
    requires begins { KeepsBegins (map (λ path. path.now) paths.now) name.now (reverse stack.now) }
    requires top { BeginsWithTop (map (λ path. path.now) paths.now) name.now (reverse stack.now) }
    ensures { (root : List ℕ) → FindsTree root (map (λ path. path.now) paths.now) (IsInner name.now) result }
{
    let top = innermost(stack)?;
    let begin = paths[top.tree as usize].name.as_bytes();
    if has_slash(name, begin.len()) {
        Some(top.tree)
    } else {
        top.inner
    }
}

/// Goes on to path t: lets the trees go that its name does not begin with, and opens it if it is a tree. Gives the innermost
/// tree that its name spells before a slash. The only error is out of memory.
pub fn pass(paths: &[&Path], stack: &mut Vec<Open>, t: u32) -> Result<Option<u32>, AllocError>
    requires paths { ArePaths (map (λ path. path.now) paths.now) }
    requires within { t < length paths.now }
    requires stack { IsStackAt (map (λ path. path.now) paths.now) t (reverse stack.old.items) }
    ensures inner { IfOk result (λ inner. (root : List ℕ)
        → FindsTree root (map (λ path. path.now) paths.now) (IsInner (path_at (map (λ path. path.now) paths.now) t).name) inner) }
    ensures stack { OnOk result (IsStackAt (map (λ path. path.now) paths.now) (t + 1) (reverse stack.new.items)) }
{
    let path = paths[t as usize];
    let name = path.name.as_bytes();
    close(paths, stack, name);
    let inner = inner_of(paths, stack, name);
    if path.tree {
        stack.push(Open { tree: t, inner })?;
    }
    Ok(inner)
}
