//! Files that recipes read or look for, that no recipe makes, and that the listing does not have.
ghost use Rattle.std.specs.Prelude.{◌≡◌, IfOk, false, filter, get_or, length, map, not};
ghost use Rattle.mk_missing.specs.Users as spec;

use crate::users::Users;
use mk_text::listing::Listing;
use std::alloc::{AllocError, Global};

/// For each file whether it is nowhere. The only error is out of memory.
pub(crate) fn unlisted_marks(
    alloc: Global,
    listing: &Listing,
    users: &[Users],
) -> Result<Vec<bool>, AllocError>
    ensures { IfOk result (λ marks. marks.items ≡ map (spec.is_nowhere listing.now) users.now) }
{
    let mut marks = Vec::with_capacity(alloc, users.len())?;
    for user in users {
        marks.push(is_nowhere(listing, user))?;
    }
    Ok(marks)
}

/// Whether nobody writes a file, which is no tree, and the listing does not have it.
fn is_nowhere(listing: &Listing, user: &Users) -> bool
    ensures { result ≡ spec.is_nowhere listing.now user.now }
{
    !user.file.tree && user.last.is_none() && !listing.contains(&user.file.name)
}

/// Drops the pairs whose files are marked, and says how many they were.
pub(crate) fn drop_unlisted(pairs: &mut Vec<(u32, u32)>, marks: &[bool]) -> usize
    ensures kept { pairs.new.items ≡ filter (λ pair. not (get_or marks.now pair.0 false)) pairs.old.items }
    ensures dropped { result ≡ length (filter (λ pair. get_or marks.now pair.0 false) pairs.old.items) }
{
    let all = pairs.len();
    pairs.retain(|&(k, _)| !is_marked(marks, k));
    all - pairs.len()
}

/// The mark at a place; none past their end.
fn is_marked(marks: &[bool], k: u32) -> bool
    ensures { result ≡ get_or marks.now k false }
{
    marks.get(k as usize).copied().unwrap_or(false)
}
