//! Refusals: why an event is not allowed.
ghost use Rattle.std.specs.Prelude.{◌≡◌};

/// Why an event, or a store, is refused (profile).
#[derive(Clone, Copy, Debug, PartialEq, Eq)]
pub enum Refusal {
    /// V1: a prerequisite has not passed.
    NotReady,
    /// V2: a start, and the node is up to date.
    NotStale,
    /// V3: a skip of a stale node that has a recipe.
    Stale,
    /// V4: a start of a node without a recipe.
    NoRecipe,
    /// V5: the node has passed or runs already.
    TwicePassed,
    /// V6: the node does not run.
    NotRunning,
    /// V7: a look outside the reads, or a put or an erasure outside the writes.
    OutsideFootprint,
    /// V8: a look that does not find what is there.
    WrongBytes,
    /// V9: a put whose time is not after all times of the store.
    NotNewer,
    /// V10: as many nodes run already as may.
    TooManyJobs,
    /// V11: the names of the store are not exactly those of the listing.
    StoreNotListing,
    /// V12: the number is that of no node.
    NoNode,
}

impl Refusal {
    ghost use Rattle.mk_sched.specs.Shown.{number_of, word_of};

    /// The number by which reports show it, from 1 to 12.
    pub fn number(self) -> u8
        ensures { result ≡ number_of self }
    {
        match self {
            Refusal::NotReady => 1,
            Refusal::NotStale => 2,
            Refusal::Stale => 3,
            Refusal::NoRecipe => 4,
            Refusal::TwicePassed => 5,
            Refusal::NotRunning => 6,
            Refusal::OutsideFootprint => 7,
            Refusal::WrongBytes => 8,
            Refusal::NotNewer => 9,
            Refusal::TooManyJobs => 10,
            Refusal::StoreNotListing => 11,
            Refusal::NoNode => 12,
        }
    }

    /// The word by which reports show it.
    pub fn word(self) -> &'static str
        ensures { result.now ≡ word_of self }
    {
        match self {
            Refusal::NotReady => "NotReady",
            Refusal::NotStale => "NotStale",
            Refusal::Stale => "Stale",
            Refusal::NoRecipe => "NoRecipe",
            Refusal::TwicePassed => "TwicePassed",
            Refusal::NotRunning => "NotRunning",
            Refusal::OutsideFootprint => "OutsideFootprint",
            Refusal::WrongBytes => "WrongBytes",
            Refusal::NotNewer => "NotNewer",
            Refusal::TooManyJobs => "TooManyJobs",
            Refusal::StoreNotListing => "StoreNotListing",
            Refusal::NoNode => "NoNode",
        }
    }
}
