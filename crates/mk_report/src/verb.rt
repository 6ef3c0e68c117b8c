//! What a node does with a path.
ghost use Rattle.std.specs.Prelude.{◌≡◌, ◌++◌, IfOk, OnOk};
ghost use Rattle.mk_path.specs.Paths as paths;
ghost use Rattle.mk_report.specs.ReportText.{racer_line, spelled_path, spells_tree, verb_text, writes_whole};

use crate::names::push_name;
use mk_jobs::jobs::Jobs;
use mk_name::name::Name;
use mk_path::covering::is_covered;
use mk_path::path::Path;
use mk_text::root::Root;
use std::alloc::{AllocError, Global};
use std::slice::from_ref;

/// Whether a text spells a tree: a slash stands behind a name.
fn spells_tree(text: &[u8]) -> bool
    ensures { result ≡ spells_tree text.now }
{
    text.len() > 1 && text[text.len() - 1] == b'/'
}

/// The path that a text spells (profile): a tree where a slash stands behind a name, else a file. The only error is out
/// of memory.
pub fn spelled_path(alloc: Global, text: &[u8]) -> Result<Path, AllocError>
    ensures { IfOk result (λ path. path ≡ spelled_path text.now) }
{
    let tree = spells_tree(text);
    let name = if tree { &text[..text.len() - 1] } else { text };
    Ok(Path {
        name: Name::from_bytes(Vec::from_slice(alloc, name)?),
        tree,
    })
}

/// Whether a path is the other, or a tree over it.
fn is_over(root: &Root, upper: &Path, lower: &Path) -> bool
    ensures { result ≡ paths.is_over root.now upper.now lower.now }
{
    upper == lower || (upper.tree && is_covered(root, from_ref(upper), &lower.name))
}

/// Whether a path that a node writes covers the whole of this one. What is no node writes nothing.
pub(crate) fn writes_whole(jobs: &Jobs, number: u32, path: &Path) -> bool
    ensures { result ≡ writes_whole jobs.now number path.now }
{
    if number >= jobs.count() {
        return false;
    }
    let root = jobs.root();
    let writes = jobs.writes(number);
    writes.iter().any(|written| is_over(root, written, path))
}

/// What a node does with a path: `writes` where a path that it writes covers the whole of it, else `reads`.
pub fn verb(jobs: &Jobs, number: u32, path: &Path) -> &'static str
    ensures { result.now ≡ verb_text jobs.now number path.now }
{
    if writes_whole(jobs, number, path) {
        "writes"
    } else {
        "reads"
    }
}

/// Puts the line of a node of a race at the end: a word, the node's name and what it does with the path. The only error is
/// out of memory.
pub(crate) fn push_racer(
    out: &mut Vec<u8>,
    jobs: &Jobs,
    word: &[u8],
    number: u32,
    path: &Path,
) -> Result<(), AllocError>
    ensures { OnOk result (out.new.items ≡ out.old.items ++ racer_line jobs.now word.now number path.now) }
{
    out.extend_from_slice(word)?;
    push_name(out, jobs, number)?;
    out.push(b' ')?;
    out.extend_from_slice(verb(jobs, number, path).as_bytes())?;
    out.push(b'\n')?;
    Ok(())
}
