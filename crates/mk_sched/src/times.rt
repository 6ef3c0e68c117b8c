//! Times, each as often as it stands there.
ghost use Rattle.std.specs.Prelude.{◌≡◌, ◌<◌, ◌+◌, ◌^◌, ◌↔◌, ℕ, IsTrue, OnOk, OnErr};
ghost use Rattle.mk_sched.specs.Stored.{one_at};
ghost use Rattle.mk_sched.specs.Timed.{count_of};

use std::alloc::{AllocError, Global};
use std::collections::BTreeMap;
use std::collections::btree_map::Entry;
use std::marker::Model;

/// Times, each as often as it stands there.
#[derive(Debug, Drop)]
pub(crate) struct Times {
    counts: BTreeMap<u64, usize>,
}

impl Model for Times {
    ghost use Rattle.std.specs.Prelude.{List, ℕ};
    ghost use Rattle.mk_sched.specs.Timed.{HasNoNoughts};

    ghost Value = { List (ℕ × ℕ) };

    ghost view = { λ a. a.counts.entries };

    ghost invariant = { λ a. HasNoNoughts a.counts.entries };
}

impl Times {
    /// No times.
    pub(crate) fn new(alloc: Global) -> Times
        ensures { (t : ℕ) → count_of result t ≡ 0 }
    {
        Times {
            counts: BTreeMap::new(alloc),
        }
    }

    /// Counts a time once more. The only error is out of memory.
    pub(crate) fn add(&mut self, time: u64) -> Result<(), AllocError>
        requires { count_of self.old time < 2 ^ 63 }
        ensures ok { OnOk result ((t : ℕ) → count_of self.new t ≡ count_of self.old t + one_at time t) }
        ensures err { OnErr result (self.new ≡ self.old) }
    {
        *self.counts.entry(time)?.or_insert(0) += 1;
        Ok(())
    }

    /// Counts a time once less.
    pub(crate) fn take(&mut self, time: u64)
        requires { 0 < count_of self.old time }
        ensures { (t : ℕ) → count_of self.new t + one_at time t ≡ count_of self.old t }
    {
        if let Ok(Entry::Occupied(mut entry)) = self.counts.entry(time) {
            if *entry.get() > 1 {
                *entry.get_mut() -= 1;
            } else {
                entry.remove();
            }
        }
    }

    /// Whether each of the times is before this one.
    pub(crate) fn are_before(&self, time: u64) -> bool
        ensures { IsTrue result ↔ ((t : ℕ) → 0 < count_of self.now t → t < time) }
    {
        match self.counts.last_key_value() {
            Some((latest, _count)) => *latest < time,
            None => true,
        }
    }
}
