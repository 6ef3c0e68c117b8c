//! Files that are wrong by themselves: trees that recipes write, and listed files that recipes write.
ghost use Rattle.std.specs.Prelude.{◌≡◌, ◌<◌, ◌↔◌, ◌&&◌, All, IfOk, IsTrue, is_some, length, not};
ghost use Rattle.mk_index.specs.Holders.{row_limit};
ghost use Rattle.mk_jobs.specs.Shape.{IsWellFormed};
ghost use Rattle.mk_name.specs.Names.{has, same_name};
ghost use Rattle.mk_missing.specs.Kinds.{HasFlaw, IsPresentName};
ghost use Rattle.mk_missing.specs.Users.{AreUsers, files_of};
ghost use Rattle.mk_missing.specs.Violations.{ArePlacesWhere, IsListedOutput};

use crate::kept::keep;
use crate::kind::Flaw;
use crate::present::is_present;
use crate::users::Users;
use mk_jobs::jobs::Jobs;
use mk_name::name::Name;
use mk_text::listing::Listing;
use std::alloc::{AllocError, Global};

/// The places of the files that have this flaw, in order. The only error is out of memory.
pub(crate) fn flawed_files(
    alloc: Global,
    jobs: &Jobs,
    listing: &Listing,
    flaw: Flaw,
    users: &[Users],
) -> Result<Vec<u32>, AllocError>
    requires shape { IsWellFormed jobs.now }
    requires few { length users.now < row_limit }
    requires users { All (AreUsers jobs.now) users.now }
    ensures { IfOk result (λ places. ArePlacesWhere (files_of users.now) (HasFlaw jobs.now listing.now flaw) places.items) }
{
    let mut found = Vec::new(alloc);
    for k in 0..users.len() {
        let flawed = has_flaw(jobs, listing, flaw, &users[k]);
        keep(&mut found, k as u32, flawed)?;
    }
    Ok(found)
}

/// Whether a file has this flaw.
fn has_flaw(jobs: &Jobs, listing: &Listing, flaw: Flaw, user: &Users) -> bool
    requires shape { IsWellFormed jobs.now }
    requires users { AreUsers jobs.now user.now }
    ensures { IsTrue result ↔ HasFlaw jobs.now listing.now flaw user.now.file }
{
    match flaw {
        Flaw::Listed => is_listed_output(jobs, listing, user),
        Flaw::Tree => is_written_tree(user),
    }
}

/// Whether a file is a tree that a node writes.
fn is_written_tree(user: &Users) -> bool
    ensures { result ≡ user.now.file.tree && is_some user.now.last }
{
    user.file.tree && user.last.is_some()
}

/// Whether a file, which is no tree, is written and listed, and is not that of a present node.
fn is_listed_output(jobs: &Jobs, listing: &Listing, user: &Users) -> bool
    requires shape { IsWellFormed jobs.now }
    requires users { AreUsers jobs.now user.now }
    ensures { IsTrue result ↔ IsListedOutput jobs.now listing.now user.now.file }
{
    let present = is_present_name(jobs, &user.file.name);
    is_listed_file(listing, user, present)
}

/// Whether a file, which is no tree, is written and listed, where its name is not that of a present node.
fn is_listed_file(listing: &Listing, user: &Users, present: bool) -> bool
    ensures { result ≡ not user.now.file.tree && is_some user.now.last && has same_name listing.now user.now.file.name && not present }
{
    !user.file.tree && user.last.is_some() && listing.contains(&user.file.name) && !present
}

/// Whether a name is that of a present node.
fn is_present_name(jobs: &Jobs, name: &Name) -> bool
    requires { IsWellFormed jobs.now }
    ensures { IsTrue result ↔ IsPresentName jobs.now name.now }
{
    match jobs.number(name) {
        Some(n) => is_present(jobs, n),
        None => false,
    }
}
