//! Whether some paths cover a name. The folders of the name are looked for among the trees, so nothing is spelled anew
//! and no memory is taken.
ghost use Rattle.std.specs.Prelude.{ℕ, ◌≡◌, ◌<◌, ◌≤◌, ◌||◌, IfErr, IfOk, false, length, take, true};
ghost use Rattle.std.specs.List.{list_any};
ghost use Rattle.std.specs.List.Sorted.{IsStrictlySortedBy};
ghost use Rattle.mk_name.specs.Names.{has};
ghost use Rattle.mk_path.specs.Covering.{found, found_outer, found_over_root, has_tree, inner_folders, tree_at};
ghost use Rattle.mk_path.specs.Paths.{covered, path_cmp, same_path, path_at};
ghost use Rattle.mk_text.specs.Spelling.{top_of};

use crate::path::Path;
use mk_name::name::Name;
use mk_text::root::Root;
use std::cmp::Ordering;

/// How a path stands to the path of a name and a kind, by name and then the file before the tree.
pub fn order(path: &Path, name: &[u8], tree: bool) -> Ordering
    ensures { result ≡ path_cmp path.now (record { name = name.now; tree = tree }) }
{
    let bytes = path.name.as_bytes();
    bytes.cmp(&name).then(path.tree.cmp(&tree))
}

/// Whether a path of this name and kind is one of the paths, which rise.
fn has_path(paths: &[Path], name: &[u8], tree: bool) -> bool
    requires { IsStrictlySortedBy path_cmp paths.now }
    ensures { result ≡ has same_path paths.now (record { name = name.now; tree = tree }) }
{
    paths
        .binary_search_by(|path| order(path, name, tree))
        .is_ok()
}

/// The length of the longest beginning that two texts have in common. It is found by halves.
pub fn common(first: &[u8], second: &[u8]) -> usize
    ensures first { result ≤ length first.now }
    ensures second { result ≤ length second.now }
    ensures same { take result first.now ≡ take result second.now }
    ensures longest { (k : ℕ) → k ≤ length first.now → k ≤ length second.now → take k first.now ≡ take k second.now → k ≤ result }
{
    let mut low = 0;
    let mut high = first.len().min(second.len());
    while low < high {
        let middle = high - (high - low) / 2;
        if first[low..middle] == second[low..middle] {
            low = middle;
        } else {
            high = middle - 1;
        }
    }
    high
}

/// How many of the paths, which rise, are known to stand before the tree of this name. Leaps from the end, each twice as long as
/// the one before, look for a path that stands there. So a search costs little where the place is near the end.
fn leap_back(paths: &[Path], name: &[u8]) -> usize
    requires { IsStrictlySortedBy path_cmp paths.now }
    ensures within { result ≤ length paths.now }
    ensures before { (j : ℕ) → j < result → path_cmp (path_at paths.now j) (tree_at name.now) ≡ Ordering.Less }
{
    let mut low = paths.len();
    let mut leap: usize = 1;
    while low > 0 && !order(&paths[low - 1], name, true).is_lt() {
        low = low.saturating_sub(leap);
        leap = leap.saturating_mul(2);
    }
    low
}

/// What is left to look through where the tree of a name is not there.
#[derive(Drop)]
struct Miss {
    /// How many of the paths, from the first one, may still be a tree whose name is a beginning of this one.
    count: usize,
    /// How long such a beginning is at most.
    most: usize,
}

/// What a miss leaves, where the tree of the name would stand at this place. The nearest path before it bounds the beginnings
/// that may be there: each is one of that path's name too. That path itself is left only where its whole name may be one.
fn miss_at(paths: &[Path], name: &[u8], place: usize) -> Miss
    requires rise { IsStrictlySortedBy path_cmp paths.now }
    requires within { place ≤ length paths.now }
    requires before { (j : ℕ) → j < place → path_cmp (path_at paths.now j) (tree_at name.now) ≡ Ordering.Less }
    requires after { (j : ℕ) → place ≤ j → j < length paths.now → path_cmp (path_at paths.now j) (tree_at name.now) ≡ Ordering.Greater }
    ensures within { result.count ≤ length paths.now }
    ensures bound { (k : ℕ) → result.most < k → k ≤ length name.now → has_tree paths.now (take k name.now) ≡ false }
    ensures left { (k : ℕ) → k ≤ length name.now → has_tree (take result.count paths.now) (take k name.now) ≡ has_tree paths.now (take k name.now) }
{
    if place == 0 {
        return Miss { count: 0, most: 0 };
    }
    let near = paths[place - 1].name.as_bytes();
    let most = common(near, name);
    if most < near.len() {
        Miss {
            count: place - 1,
            most,
        }
    } else {
        Miss { count: place, most }
    }
}

/// Whether the tree of this name is one of the paths, which rise; and where it is not, what is left to look through for the
/// beginnings of the name.
fn find_tree(paths: &[Path], name: &[u8]) -> Result<(), Miss>
    requires { IsStrictlySortedBy path_cmp paths.now }
    ensures found { IfOk result (λ _. has_tree paths.now name.now ≡ true) }
    ensures missed { IfErr result (λ _. has_tree paths.now name.now ≡ false) }
    ensures within { IfErr result (λ miss. miss.count ≤ length paths.now) }
    ensures bound { IfErr result (λ miss. (k : ℕ) → miss.most < k → k ≤ length name.now → has_tree paths.now (take k name.now) ≡ false) }
    ensures left { IfErr result (λ miss. (k : ℕ) → k ≤ length name.now
        → has_tree (take miss.count paths.now) (take k name.now) ≡ has_tree paths.now (take k name.now)) }
{
    let low = leap_back(paths, name);
    match paths[low..].binary_search_by(|path| order(path, name, true)) {
        Ok(_) => Ok(()),
        Err(place) => Err(miss_at(paths, name, low + place)),
    }
}

/// Whether a tree of the paths is a folder that the text spells, other than the text itself. The longest folders are looked
/// for first, those that a miss rules out are passed over, and so are the paths behind its place.
fn has_inner_folder(paths: &[Path], text: &[u8]) -> bool
    requires { IsStrictlySortedBy path_cmp paths.now }
    ensures { result ≡ list_any (has_tree paths.now) (inner_folders text.now) }
{
    let mut rest = paths;
    let mut i = text.len();
    let mut most = i;
    while i > 1 {
        i -= 1;
        if i <= most && text[i] == b'/' {
            match find_tree(rest, &text[..i]) {
                Ok(()) => return true,
                Err(miss) => {
                    most = miss.most;
                    rest = &rest[..miss.count];
                }
            }
        }
    }
    false
}

/// Whether a tree of the paths is a folder that the text spells.
fn has_own_folder(paths: &[Path], text: &[u8]) -> bool
    requires { IsStrictlySortedBy path_cmp paths.now }
    ensures { result ≡ (has_tree paths.now text.now || list_any (has_tree paths.now) (inner_folders text.now)) }
{
    has_path(paths, text, true) || has_inner_folder(paths, text)
}

/// Whether a tree of the paths is a folder that the root stands in.
fn has_folder_over_root(root: &Root, paths: &[Path]) -> bool
    requires { IsStrictlySortedBy path_cmp paths.now }
    ensures { result ≡ found_over_root paths.now (top_of root.now) }
{
    let top = root.top();
    let is_slash = top == b"/".as_slice();
    !is_slash && (has_inner_folder(paths, top) || has_path(paths, b"/".as_slice(), true))
}

/// Whether a tree of the paths is a folder over those that a name spells.
fn has_outer_folder(root: &Root, paths: &[Path], name: &[u8]) -> bool
    requires { IsStrictlySortedBy path_cmp paths.now }
    ensures { result ≡ found_outer paths.now (top_of root.now) name.now }
{
    match name {
        [b'/', ..] => has_path(paths, b"/".as_slice(), true),
        _ => has_path(paths, b".".as_slice(), true) || has_folder_over_root(root, paths),
    }
}

/// Whether the file of this name, or a tree that it stands in, is one of the paths.
fn is_found(root: &Root, paths: &[Path], name: &[u8]) -> bool
    requires { IsStrictlySortedBy path_cmp paths.now }
    ensures { result ≡ found paths.now (top_of root.now) name.now }
{
    has_path(paths, name, false)
        || has_own_folder(paths, name)
        || has_outer_folder(root, paths, name)
}

/// Whether one of the paths, which rise, covers a name (profile): a file its own name, a tree what stands in its
/// folder.
pub fn is_covered(root: &Root, paths: &[Path], name: &Name) -> bool
    requires { IsStrictlySortedBy path_cmp paths.now }
    ensures { result ≡ covered root.now paths.now name.now }
{
    is_found(root, paths, name.as_bytes())
}
