//! Whether rows of paths make jobs of a plan.
ghost use Rattle.std.specs.Prelude.{◌<◌, IsTrue, length};
ghost use Rattle.mk_jobs.specs.Rows.{with_rows};
ghost use Rattle.mk_jobs.specs.Shape.{AreNamed, IsRising, IsWellFormed};
ghost use Rattle.model_tests.specs.Rows.{OwnsAlone, RowFits};

use mk_jobs::plan::Plan;
use mk_jobs::recipe::is_live;
use mk_path::covering::is_covered;
use mk_path::path::Path;
use mk_text::root::Root;

/// Whether the rows of paths make jobs of a plan: there is one of each kind for each node, and each fits its node.
pub(crate) fn are_fit(plan: &Plan, root: &Root, reads: &[Vec<Path>], writes: &[Vec<Path>]) -> bool
    ensures { IsTrue result → IsWellFormed (with_rows plan.now root.now reads.now writes.now) }
{
    let count = plan.count() as usize;
    if reads.len() != count || writes.len() != count {
        return false;
    }
    for n in 0..plan.count() {
        let read = reads[n as usize].as_slice();
        let written = writes[n as usize].as_slice();
        if !fits(plan, root, n, read, written) {
            return false;
        }
    }
    true
}

/// Whether two rows of paths fit a node: they rise, each path has a name, they are empty unless the node is live, and no
/// name of another node is written.
fn fits(plan: &Plan, root: &Root, n: u32, reads: &[Path], writes: &[Path]) -> bool
    requires { n < length plan.now.nodes }
    ensures { IsTrue result → RowFits plan.now root.now n reads.now writes.now }
{
    if is_live(plan, n) {
        return are_good(reads) && are_good(writes) && owns_alone(plan, root, n, writes);
    }
    reads.is_empty() && writes.is_empty()
}

/// Whether paths rise, and each has a name.
fn are_good(paths: &[Path]) -> bool
    ensures rising { IsTrue result → IsRising paths.now }
    ensures named { IsTrue result → AreNamed paths.now }
{
    rise(paths) && are_named(paths)
}

/// Whether each path stands before the next.
fn rise(paths: &[Path]) -> bool
    ensures { IsTrue result → IsRising paths.now }
{
    for place in 1..paths.len() {
        if !paths[place - 1].cmp(&paths[place]).is_lt() {
            return false;
        }
    }
    true
}

/// Whether each path has a name.
fn are_named(paths: &[Path]) -> bool
    ensures { IsTrue result → AreNamed paths.now }
{
    for path in paths {
        if path.name.as_bytes().is_empty() {
            return false;
        }
    }
    true
}

/// Whether the paths, which rise, cover no node's name but that of node n.
fn owns_alone(plan: &Plan, root: &Root, n: u32, paths: &[Path]) -> bool
    requires { IsRising paths.now }
    ensures { IsTrue result → OwnsAlone plan.now root.now n paths.now }
{
    for m in 0..plan.count() {
        if m != n && is_covered(root, paths, plan.name(m)) {
            return false;
        }
    }
    true
}
