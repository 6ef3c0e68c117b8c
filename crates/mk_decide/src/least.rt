//! The least race.
ghost use Rattle.std.specs.Prelude.{ℕ, ◌≡◌, ◌≢◌, ◌<◌, ◌↔◌, ◌⊎◌, IfSome, IsNone, Some, false, true};
ghost use Rattle.mk_jobs.specs.Jobs as spec;
ghost use Rattle.mk_jobs.specs.Jobs.{Clash, IsRaceFree, node_count};
ghost use Rattle.mk_index.specs.Uses.{Reaches};
ghost use Rattle.mk_jobs.specs.Reaching.{uses_of};
ghost use Rattle.mk_jobs.specs.Shape.{IsWellFormed};
ghost use Rattle.mk_decide.specs.LeastRaces.{IsFound, IsSettled, IsUpTo, Lowers};
ghost use Rattle.mk_decide.specs.Races.{IsLeastRace};

use crate::before::Before;
use crate::marks::{next_bit, row_of};
use mk_jobs::jobs::Jobs;

/// The race that no other precedes, by first and then second number; none where the jobs are race-free. `before` must speak
/// of the same jobs. It takes no memory, and goes over no pairs but those that clash.
pub fn least_race<B: Before>(jobs: &Jobs, before: &mut B) -> Option<(u32, u32)>
    requires same { B.jobs before.old ≡ jobs.now }
    ensures free { IsNone result ↔ IsRaceFree jobs.now }
    ensures least { IfSome result (λ race. IsLeastRace jobs.now race.0 race.1) }
    ensures keeps { B.jobs before.new ≡ B.jobs before.old }
{
    let mut found = None;
    let count = jobs.count();
    for b in 0..count {
        found = with_node(jobs, before, found, b);
    }
    found
}

/// What was found, or the first of the races of b with nodes that reach it, whichever comes first.
fn with_node<B: Before>(
    jobs: &Jobs,
    before: &mut B,
    found: Option<(u32, u32)>,
    b: u32,
) -> Option<(u32, u32)>
    requires same { B.jobs before.old ≡ jobs.now }
    requires shape { IsWellFormed jobs.now }
    requires node { b < node_count jobs.now }
    requires race { IsFound jobs.now found }
    ensures race { IsFound jobs.now result }
    ensures lower { Lowers found result }
    ensures settled { (a : ℕ) → a ≢ b → Reaches (uses_of jobs.now) a b → IsSettled jobs.now result a b }
    ensures keeps { B.jobs before.new ≡ B.jobs before.old }
{
    let row = row_of(jobs, b);
    let mut least = found;
    let mut from = 0;
    while let Some(a) = next_bit(&row, from) {
        if a < b {
            least = lesser(jobs, before, least, a, b);
        } else if b < a {
            least = lesser(jobs, before, least, b, a);
        }
        from = a + 1;
    }
    least
}

/// What was found, or this pair where it is a race that comes first.
fn lesser<B: Before>(
    _jobs: &Jobs,
    before: &mut B,
    found: Option<(u32, u32)>,
    a: u32,
    b: u32,
) -> Option<(u32, u32)>
    requires same { B.jobs before.old ≡ _jobs.now }
    requires shape { IsWellFormed _jobs.now }
    requires race { IsFound _jobs.now found }
    requires rises { a < b }
    requires clash { Clash _jobs.now a b }
    ensures race { IsFound _jobs.now result }
    ensures lower { Lowers found result }
    ensures settled { spec.Before _jobs.now a b ⊎ IsUpTo result a b }
    ensures keeps { B.jobs before.new ≡ B.jobs before.old }
{
    if is_up_to(found, a, b) {
        return found;
    }
    if before.before(a, b) {
        return found;
    }
    Some((a, b))
}

/// Whether a pair was found that is not behind this one.
fn is_up_to(found: Option<(u32, u32)>, a: u32, b: u32) -> bool
    ensures up { result ≡ true → IsUpTo found a b }
    ensures behind { result ≡ false → Lowers found (Some (a, b)) }
{
    match found {
        Some((first, second)) => first < a || (first == a && second <= b),
        None => false,
    }
}
