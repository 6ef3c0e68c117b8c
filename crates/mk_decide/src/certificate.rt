//! The certificate of jobs in which each clash is in order.
ghost use Rattle.std.specs.Prelude.{◌≡◌, ◌<◌, ◌≤◌, ◌∷◌, ◌++◌, [], IfNone, IfOk, IfSome, List, OnOk, length, map, ℕ};
ghost use Rattle.std.specs.List.{All};
ghost use Rattle.std.specs.List.Sorted.{IsStrictlySortedBy};
ghost use Rattle.mk_jobs.specs.Jobs as spec;
ghost use Rattle.mk_jobs.specs.Jobs.{node_count};
ghost use Rattle.mk_jobs.specs.Shape.{IsWellFormed};
ghost use Rattle.mk_decide.specs.Chosen.{IsChosen};
ghost use Rattle.mk_proof.specs.Shapes.{ends_of, most_chains, pair_cmp};
ghost use Rattle.mk_decide.specs.Pairs.{ArePairs, OnlyClashing, PairsRise};
ghost use Rattle.mk_decide.specs.Races.{IsLeastRace};
ghost use Rattle.mk_decide.specs.Verdicts.{AreChainsOf};

use crate::before::Before;
use crate::chains::fill_chain;
use mk_jobs::jobs::Jobs;
use mk_proof::certificate::Certificate;
use std::alloc::{AllocError, Global};

/// The first of the clashing pairs that is a race, if one is.
pub(crate) fn first_race<B: Before>(
    _jobs: &Jobs,
    before: &mut B,
    pairs: &[(u32, u32)],
) -> Option<(u32, u32)>
    requires same { B.jobs before.old ≡ _jobs.now }
    requires shape { IsWellFormed _jobs.now }
    requires pairs { ArePairs _jobs.now pairs.now }
    ensures none { IfNone result (All (λ pair. spec.Before _jobs.now pair.0 pair.1) pairs.now) }
    ensures some { IfSome result (λ race. IsLeastRace _jobs.now race.0 race.1) }
    ensures keeps { B.jobs before.new ≡ B.jobs before.old }
{
    for i in 0..pairs.len() {
        let (a, b) = pairs[i];
        if !before.before(a, b) {
            return Some((a, b));
        }
    }
    None
}

/// The certificate of these pairs: for each the chain that leads from its first node to its second. The only error is out of
/// memory.
pub(crate) fn certificate_of<B: Before>(
    alloc: Global,
    jobs: &Jobs,
    before: &mut B,
    pairs: &[(u32, u32)],
) -> Result<Certificate, AllocError>
    requires same { B.jobs before.old ≡ jobs.now }
    requires few { length pairs.now ≤ most_chains }
    requires shape { IsWellFormed jobs.now }
    requires rise { PairsRise pairs.now }
    requires clash { OnlyClashing jobs.now pairs.now }
    requires ordered { All (λ pair. spec.Before jobs.now pair.0 pair.1) pairs.now }
    ensures chains { IfOk result (λ chains. AreChainsOf jobs.now pairs.now chains) }
    ensures keeps { B.jobs before.new ≡ B.jobs before.old }
{
    let mut chains = Certificate::new(alloc);
    let mut nodes = Vec::new(alloc);
    for i in 0..pairs.len() {
        let (a, b) = pairs[i];
        push_chain(jobs, before, &mut nodes, &mut chains, a, b)?;
    }
    Ok(chains)
}

/// Puts at the end the chain that leads from a to b. It is built in the nodes, whose room serves chain after chain. The only
/// error is out of memory.
fn push_chain<B: Before>(
    jobs: &Jobs,
    before: &mut B,
    nodes: &mut Vec<u32>,
    chains: &mut Certificate,
    a: u32,
    b: u32,
) -> Result<(), AllocError>
    requires same { B.jobs before.old ≡ jobs.now }
    requires shape { IsWellFormed jobs.now }
    requires first { a < node_count jobs.now }
    requires second { b < node_count jobs.now }
    requires ordered { spec.Before jobs.now a b }
    requires room { length chains.old < most_chains }
    requires rises { IsStrictlySortedBy pair_cmp (map ends_of chains.old ++ (a, b) ∷ []) }
    ensures pushed { OnOk result ((chain : List ℕ) × (chains.new ≡ chains.old ++ chain ∷ []) × IsChosen jobs.now a b chain) }
    ensures keeps { B.jobs before.new ≡ B.jobs before.old }
{
    let _count = chains.count();
    if fill_chain(jobs, before, a, b, nodes)? {
        chains.push(nodes.as_slice())
    } else {
        Ok(())
    }
}
