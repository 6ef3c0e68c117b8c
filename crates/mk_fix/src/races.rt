//! All races of jobs.
ghost use Rattle.std.specs.Prelude.{ℕ, ◌≡◌, Err, IfErr, IfOk};
ghost use Rattle.mk_name.specs.Gives.{HaltsAmong};
ghost use Rattle.mk_jobs.specs.Shape.{IsWellFormed};
ghost use Rattle.mk_decide.specs.Pairs.{ArePairs, HasManyPairs, too_many};
ghost use Rattle.mk_fix.specs.AllRaces.{AreRaces, HasPairs};

use mk_decide::before::Before;
use mk_decide::pairs::clashing_pairs;
use mk_jobs::jobs::Jobs;
use mk_name::fault::Halt;
use std::alloc::{AllocError, Global};

/// All races of jobs, and how many pairs of their nodes clash.
#[derive(Debug, Drop)]
pub struct Races {
    pub pairs: usize,
    pub races: Vec<(u32, u32)>,
}

/// All races of these jobs, each once, by first and then second number, and how many pairs of nodes clash. `before` must speak
/// of the same jobs, and does so afterwards, also behind an error. Where more than `PAIR_LIMIT` pairs clash the fault is `TooManyPairs` in the jobs, at place 0 (profile).
pub fn all_races<B: Before>(alloc: Global, jobs: &Jobs, before: &mut B) -> Result<Races, Halt>
    requires same { B.jobs before.old ≡ jobs.now }
    ensures races { IfOk result (λ found. AreRaces jobs.now found.races.items) }
    ensures pairs { IfOk result (λ found. HasPairs jobs.now found.pairs) }
    ensures many { IfErr result (λ halt.
        HaltsAmong {Y = ℕ} halt (λ answer. (answer ≡ Err too_many) × HasManyPairs jobs.now)) }
    ensures keeps { B.jobs before.new ≡ B.jobs before.old }
{
    let _count = jobs.count();
    let pairs = clashing_pairs(alloc, jobs)?;
    let races = races_among(alloc, jobs, before, &pairs)?;
    Ok(Races {
        pairs: pairs.len(),
        races,
    })
}

/// Those of all clashing pairs that are races. The only error is out of memory.
fn races_among<B: Before>(
    alloc: Global,
    _jobs: &Jobs,
    before: &mut B,
    pairs: &[(u32, u32)],
) -> Result<Vec<(u32, u32)>, AllocError>
    requires same { B.jobs before.old ≡ _jobs.now }
    requires shape { IsWellFormed _jobs.now }
    requires pairs { ArePairs _jobs.now pairs.now }
    ensures races { IfOk result (λ races. AreRaces _jobs.now races.items) }
    ensures keeps { B.jobs before.new ≡ B.jobs before.old }
{
    let mut races = Vec::new(alloc);
    for i in 0..pairs.len() {
        let (a, b) = pairs[i];
        if !before.before(a, b) {
            races.push((a, b))?;
        }
    }
    Ok(races)
}
