//! Whether the chains of a certificate go along edges.
ghost use Rattle.std.specs.Prelude.{◌<◌, ◌≤◌, ◌↔◌, All, IsTrue, length};
ghost use Rattle.mk_jobs.specs.Jobs.{node_count};
ghost use Rattle.mk_cert.specs.Certificates.{IsChain};

use mk_jobs::jobs::Jobs;
use mk_proof::certificate::Certificate;

/// Whether the numbers of a chain are nodes, and each is a prerequisite of the next.
fn goes_along(jobs: &Jobs, chain: &[u32]) -> bool
    requires { 2 ≤ length chain.now }
    ensures { IsTrue result ↔ (All (λ n. n < node_count jobs.now) chain.now × IsChain jobs.now chain.now) }
{
    let count = jobs.count();
    for place in 1..chain.len() {
        if chain[place] >= count || !jobs.is_prerequisite(chain[place - 1], chain[place]) {
            return false;
        }
    }
    true
}

/// Whether the numbers of all chains are nodes, and each chain goes along edges.
pub fn are_chains(jobs: &Jobs, certificate: &Certificate) -> bool
    ensures { IsTrue result
        ↔ (All (All (λ n. n < node_count jobs.now)) certificate.now × All (IsChain jobs.now) certificate.now) }
{
    for number in 0..certificate.count() {
        if !goes_along(jobs, certificate.chain(number)) {
            return false;
        }
    }
    true
}
