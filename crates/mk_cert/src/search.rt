//! Searches among the chains of a certificate.
ghost use Rattle.std.specs.Prelude.{◌≡◌, ◌<◌, ◌↔◌, IsTrue, length};
ghost use Rattle.mk_proof.specs.Shapes.{ends_of, pair_cmp};
ghost use Rattle.mk_cert.specs.Certificates.{IsAtEnds};

use mk_proof::certificate::Certificate;
use std::cmp::Ordering;

/// How the ends of a chain compare with a pair.
fn compare(chain: &[u32], first: u32, last: u32) -> Ordering
    requires { 0 < length chain.now }
    ensures { result ≡ pair_cmp (ends_of chain.now) (first, last) }
{
    let end = chain[chain.len() - 1];
    chain[0].cmp(&first).then(end.cmp(&last))
}

/// Whether one of the chains leads from one number to another. It is searched by halves.
pub fn has_chain(certificate: &Certificate, first: u32, last: u32) -> bool
    ensures { IsTrue result ↔ IsAtEnds certificate.now first last }
{
    let mut low = 0;
    let mut high = certificate.count();
    while low < high {
        let middle = low + (high - low) / 2;
        match compare(certificate.chain(middle), first, last) {
            Ordering::Less => low = middle + 1,
            Ordering::Greater => high = middle,
            Ordering::Equal => return true,
        }
    }
    false
}
