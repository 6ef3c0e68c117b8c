//! All that is wrong of a kind.
ghost use Rattle.std.specs.Prelude.{◌≡◌, ◌<◌, ◌+◌, ◌++◌, ◌∷◌, [], All, IfOk, OnOk, false, length, true};
ghost use Rattle.mk_index.specs.Holders.{row_limit};
ghost use Rattle.mk_missing.specs.Finding.{AreChecked, AreFound};
ghost use Rattle.mk_missing.specs.Kinds.{IsFine, IsWrong};
ghost use Rattle.mk_missing.specs.Users.{AreUsers, files_of};

use crate::checker::Checker;
use crate::kind::{Kind, nodes_of};
use crate::order::in_order;
use crate::users::Users;
use std::alloc::{AllocError, Global};

/// The places of files and the nodes of which something of this kind is wrong, in order. The only error is out of memory.
pub(crate) fn wrong_pairs(
    alloc: Global,
    checker: &mut Checker<'_>,
    kind: Kind,
    users: &[Users],
) -> Result<Vec<(u32, u32)>, AllocError>
    requires few { length users.now < row_limit }
    requires users { All (AreUsers checker.old) users.now }
    ensures pairs { IfOk result (λ pairs. AreChecked (files_of users.now) (IsWrong checker.old kind) (IsFine checker.old kind) pairs.items) }
    ensures keeps { checker.new ≡ checker.old }
{
    let mut pairs = Vec::new(alloc);
    for k in 0..users.len() {
        add_wrong(checker, kind, users, k, &mut pairs)?;
    }
    in_order(&mut pairs);
    Ok(pairs)
}

/// Adds the nodes of which something of this kind is wrong with the file at a place. The only error is out of memory.
fn add_wrong(
    checker: &mut Checker<'_>,
    kind: Kind,
    users: &[Users],
    k: usize,
    pairs: &mut Vec<(u32, u32)>,
) -> Result<(), AllocError>
    requires few { length users.now < row_limit }
    requires place { k < length users.now }
    requires users { All (AreUsers checker.old) users.now }
    requires found { AreFound (files_of users.now) (IsWrong checker.old kind) (IsFine checker.old kind) pairs.old.items k }
    ensures found { OnOk result (AreFound (files_of users.now) (IsWrong checker.old kind) (IsFine checker.old kind) pairs.new.items (k + 1)) }
    ensures keeps { checker.new ≡ checker.old }
{
    let user = &users[k];
    for &n in nodes_of(kind, user) {
        let fine = checker.is_fine(kind, user, n);
        put(pairs, k as u32, n, fine)?;
    }
    Ok(())
}

/// Puts a pair behind others, unless all is fine. The only error is out of memory.
fn put(pairs: &mut Vec<(u32, u32)>, k: u32, n: u32, fine: bool) -> Result<(), AllocError>
    ensures put { fine ≡ false → OnOk result (pairs.new.items ≡ pairs.old.items ++ (k, n) ∷ []) }
    ensures kept { fine ≡ true → OnOk result (pairs.new.items ≡ pairs.old.items) }
{
    if !fine {
        pairs.push((k, n))?;
    }
    Ok(())
}
