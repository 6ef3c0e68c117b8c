//! The nearest tree over each path.
ghost use Rattle.std.specs.Prelude.{List, ℕ, ◌≡◌, ◌<◌, ◌≤◌, IfErr, IfOk, length, map, take, true};
ghost use Rattle.std.specs.List.{filter};
ghost use Rattle.mk_path.specs.Paths.{path_at};
ghost use Rattle.mk_index.specs.Nearest.{AreNearest, ArePaths, AreRanks, AreTrees, AreWaysUp, FindsTree, IsInner, IsInnermost, IsNext, IsOther, IsOuter, IsOverName, IsOverPath, IsOverText, IsOwn, IsTreeAt, is_tree, rank_of};
ghost use Rattle.mk_text.specs.Spelling.{is_absolute, top_of};

use crate::places::number;
use crate::sweep::pass;
use crate::ups::Ups;
use mk_path::covering::{common, order};
use mk_path::path::Path;
use mk_text::root::Root;
use std::alloc::{AllocError, Global};

/// The greatest rank of a path.
const RANK_LIMIT: usize = 4294967295;

/// The ways up from the numbers of some paths to the trees over them. A path's rank is how many bytes its name has, spelled
/// from the top, and one more for a file. The only error is out of memory, also where a name is so long that
/// its rank has no 32 bits.
pub fn ways_up(alloc: Global, root: &Root, paths: &[&Path]) -> Result<Ups, AllocError>
    requires { ArePaths (map (λ path. path.now) paths.now) }
    ensures ways { IfOk result (λ ups. AreWaysUp root.now (map (λ path. path.now) paths.now) ups) }
    ensures ranks { IfOk result (λ ups. AreRanks (top_of root.now) (map (λ path. path.now) paths.now) (length paths.now) ups.ranks) }
{
    let next = next_above(alloc, root, paths)?;
    let ranks = ranks(alloc, root, paths)?;
    Ok(Ups::new(next, ranks))
}

/// For each path the number of the nearest tree over it, or its own where none is. The only error is out of memory.
fn next_above(alloc: Global, root: &Root, paths: &[&Path]) -> Result<Vec<u32>, AllocError>
    requires { ArePaths (map (λ path. path.now) paths.now) }
    ensures { IfOk result (λ next. AreNearest root.now (map (λ path. path.now) paths.now) (length paths.now) next.items) }
{
    let trees = trees_of(alloc, paths)?;
    let outside = over_text(paths, &trees, root.top());
    let mut stack = Vec::new(alloc);
    let mut next = Vec::with_capacity(alloc, paths.len())?;
    for t in 0..paths.len() as u32 {
        let inner = pass(paths, &mut stack, t)?;
        next.push(next_of(paths, &trees, outside, inner, t))?;
    }
    Ok(next)
}

/// Those of the paths that are trees.
fn trees_of<'a>(alloc: Global, paths: &[&'a Path]) -> Result<Vec<&'a Path>, AllocError>
    ensures { IfOk result (λ trees. map (λ tree. tree.now) trees.items ≡ filter is_tree (map (λ path. path.now) paths.now)) }
{
    let mut trees = Vec::new(alloc);
    for path in paths {
        if path.tree {
            trees.push(*path)?;
        }
    }
    Ok(trees)
}

/// The number of the tree with this name, if there is one.
fn tree_of(paths: &[&Path], trees: &[&Path], name: &[u8]) -> Option<u32>
    requires { AreTrees (map (λ path. path.now) paths.now) (map (λ tree. tree.now) trees.now) }
    ensures { (root : List ℕ) → FindsTree root (map (λ path. path.now) paths.now) (λ y. y ≡ name.now) result }
{
    match trees.binary_search_by(|&tree| order(tree, name, true)) {
        Ok(place) => Some(number(paths, trees[place])),
        Err(_) => None,
    }
}

/// The number of the tree of a folder, if there is one and it is not the tree of this name.
fn other_tree(paths: &[&Path], trees: &[&Path], name: &[u8], folder: &[u8]) -> Option<u32>
    requires { AreTrees (map (λ path. path.now) paths.now) (map (λ tree. tree.now) trees.now) }
    ensures { (root : List ℕ) → FindsTree root (map (λ path. path.now) paths.now) (IsOther name.now folder.now) result }
{
    if name == folder {
        None
    } else {
        tree_of(paths, trees, folder)
    }
}

/// The number of the tree with this name; or where there is none, how long at most a beginning of the name is that has one.
/// The nearest tree before the name bounds that: such a beginning is one of that tree's name too.
fn find_tree(paths: &[&Path], trees: &[&Path], name: &[u8]) -> Result<u32, usize>
    requires { AreTrees (map (λ path. path.now) paths.now) (map (λ tree. tree.now) trees.now) }
    ensures found { IfOk result (λ u. (root : List ℕ) → IsInnermost root (map (λ path. path.now) paths.now) (λ y. y ≡ name.now) u) }
    ensures missed { IfErr result (λ _. (v : ℕ) → IsTreeAt (map (λ path. path.now) paths.now) v name.now → ⊥) }
    ensures bound { IfErr result (λ most. (v k : ℕ) → most < k → k ≤ length name.now
        → IsTreeAt (map (λ path. path.now) paths.now) v (take k name.now) → ⊥) }
{
    match trees.binary_search_by(|&tree| order(tree, name, true)) {
        Ok(place) => Ok(number(paths, trees[place])),
        Err(0) => Err(0),
        Err(place) => Err(common(trees[place - 1].name.as_bytes(), name)),
    }
}

/// The innermost tree whose name is what a text begins with before a slash, except for a slash at its begin. The longest names
/// are looked for first, and those that a miss rules out are passed over.
fn inner(paths: &[&Path], trees: &[&Path], text: &[u8]) -> Option<u32>
    requires { AreTrees (map (λ path. path.now) paths.now) (map (λ tree. tree.now) trees.now) }
    ensures { (root : List ℕ) → FindsTree root (map (λ path. path.now) paths.now) (IsInner text.now) result }
{
    let mut i = text.len();
    let mut most = i;
    while i > 1 {
        i -= 1;
        if i <= most && text[i] == b'/' {
            match find_tree(paths, trees, &text[..i]) {
                Ok(u) => return Some(u),
                Err(bound) => most = bound,
            }
        }
    }
    None
}

/// The innermost tree over a text that begins with a slash.
fn over_text(paths: &[&Path], trees: &[&Path], text: &[u8]) -> Option<u32>
    requires trees { AreTrees (map (λ path. path.now) paths.now) (map (λ tree. tree.now) trees.now) }
    requires absolute { is_absolute text.now ≡ true }
    ensures { (root : List ℕ) → FindsTree root (map (λ path. path.now) paths.now) (IsOverText text.now) result }
{
    match inner(paths, trees, text) {
        Some(u) => Some(u),
        None => other_tree(paths, trees, text, b"/".as_slice()),
    }
}

/// Whether a text begins with a slash.
fn is_absolute(text: &[u8]) -> bool
    ensures { result ≡ is_absolute text.now }
{
    match text {
        [b'/', ..] => true,
        _ => false,
    }
}

/// The innermost tree over the folders that a name spells; `outside` is that over the root.
fn outer(paths: &[&Path], trees: &[&Path], outside: Option<u32>, name: &[u8]) -> Option<u32>
    requires { AreTrees (map (λ path. path.now) paths.now) (map (λ tree. tree.now) trees.now) }
    ensures { (root : List ℕ) → FindsTree root (map (λ path. path.now) paths.now) (IsOverText (top_of root)) outside
        → FindsTree root (map (λ path. path.now) paths.now) (IsOuter (top_of root) name.now) result }
{
    if is_absolute(name) {
        return other_tree(paths, trees, name, b"/".as_slice());
    }
    match other_tree(paths, trees, name, b".".as_slice()) {
        Some(u) => Some(u),
        None => outside,
    }
}

/// The innermost tree over a name, other than that of the name; `outside` is that over the root, and `inner` that which the name
/// spells before a slash.
fn over_name(
    paths: &[&Path],
    trees: &[&Path],
    outside: Option<u32>,
    inner: Option<u32>,
    name: &[u8],
) -> Option<u32>
    requires { AreTrees (map (λ path. path.now) paths.now) (map (λ tree. tree.now) trees.now) }
    ensures { (root : List ℕ) → FindsTree root (map (λ path. path.now) paths.now) (IsOverText (top_of root)) outside
        → FindsTree root (map (λ path. path.now) paths.now) (IsInner name.now) inner
        → FindsTree root (map (λ path. path.now) paths.now) (IsOverName (top_of root) name.now) result }
{
    match inner {
        Some(u) => Some(u),
        None => outer(paths, trees, outside, name),
    }
}

/// The tree of a file's own name.
fn own(paths: &[&Path], trees: &[&Path], path: &Path) -> Option<u32>
    requires { AreTrees (map (λ path. path.now) paths.now) (map (λ tree. tree.now) trees.now) }
    ensures { (root : List ℕ) → FindsTree root (map (λ path. path.now) paths.now) (IsOwn path.now) result }
{
    if path.tree {
        None
    } else {
        tree_of(paths, trees, path.name.as_bytes())
    }
}

/// The nearest tree over a path, other than itself; `outside` is that over the root, and `inner` that which the path's name spells
/// before a slash.
fn nearest(
    paths: &[&Path],
    trees: &[&Path],
    outside: Option<u32>,
    inner: Option<u32>,
    path: &Path,
) -> Option<u32>
    requires { AreTrees (map (λ path. path.now) paths.now) (map (λ tree. tree.now) trees.now) }
    ensures { (root : List ℕ) → FindsTree root (map (λ path. path.now) paths.now) (IsOverText (top_of root)) outside
        → FindsTree root (map (λ path. path.now) paths.now) (IsInner path.now.name) inner
        → FindsTree root (map (λ path. path.now) paths.now) (IsOverPath root path.now) result }
{
    if trees.is_empty() {
        return None;
    }
    match own(paths, trees, path) {
        Some(u) => Some(u),
        None => over_name(paths, trees, outside, inner, path.name.as_bytes()),
    }
}

/// The number of the nearest tree over a path, or the path's own number where none is; `outside` is the innermost tree over the
/// root, and `inner` that which the path's name spells before a slash.
fn next_of(
    paths: &[&Path],
    trees: &[&Path],
    outside: Option<u32>,
    inner: Option<u32>,
    t: u32,
) -> u32
    requires trees { AreTrees (map (λ path. path.now) paths.now) (map (λ tree. tree.now) trees.now) }
    requires within { t < length paths.now }
    ensures { (root : List ℕ) → FindsTree root (map (λ path. path.now) paths.now) (IsOverText (top_of root)) outside
        → FindsTree root (map (λ path. path.now) paths.now) (IsInner (path_at (map (λ path. path.now) paths.now) t).name) inner
        → IsNext root (map (λ path. path.now) paths.now) t result }
{
    match nearest(paths, trees, outside, inner, paths[t as usize]) {
        Some(u) => u,
        None => t,
    }
}

/// The ranks of some paths. The only error is out of memory, also where a rank has no 32 bits.
fn ranks(alloc: Global, root: &Root, paths: &[&Path]) -> Result<Vec<u32>, AllocError>
    ensures { IfOk result (λ ranks. AreRanks (top_of root.now) (map (λ path. path.now) paths.now) (length paths.now) ranks.items) }
{
    let top = root.top();
    let mut ranks = Vec::with_capacity(alloc, paths.len())?;
    for path in paths {
        ranks.push(rank(top.len(), path)?)?;
    }
    Ok(ranks)
}

/// The rank of a path, where the root's spelling from the top has this length: how long its name is, spelled from the top.
fn rank(top: usize, path: &Path) -> Result<u32, AllocError>
    ensures { IfOk result (λ rank. rank ≡ rank_of top path.now) }
{
    let name = path.name.as_bytes();
    let depth = match name {
        [b'/', ..] => name.len(),
        [b'.'] => top,
        _ => top.saturating_add(name.len()).saturating_add(1),
    };
    let rank = if path.tree {
        depth
    } else {
        depth.saturating_add(1)
    };
    if rank > RANK_LIMIT {
        return Err(AllocError);
    }
    Ok(rank as u32)
}
