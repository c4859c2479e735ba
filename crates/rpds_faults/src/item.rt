//! Items whose clone is refused, and that count their drops and comparisons.
ghost use Rattle.std.specs.Prelude.{◌≡◌, ◌==◌};
ghost use Rattle.std.proofs.Common.{rules};
ghost use Rattle.std.specs.Cmp.{partial_order_from_own_ties};
ghost use Rattle.std.specs.Cmp.Rules.{comparing, hashing};
ghost use Rattle.std.specs.Hash as fed;
ghost use Rattle.std.specs.Ordering.{nat_cmp, on, as_partial_cmp};

use std::alloc::AllocError;
use std::cell::Cell;
use std::cmp::Ordering;
use std::hash::{Hash, Hasher};

/// What the items of one test share: how many of their clones go through, how many of them were made and dropped, how often
/// they were compared, and how many hashes were begun.
pub struct LifeCounts {
    clones_left: Cell<u64>,
    made: Cell<u64>,
    drops: Cell<u64>,
    matched: Cell<u64>,
    compared: Cell<u64>,
    hashed: Cell<u64>,
}

impl LifeCounts {
    /// No clone is refused, and nothing was made, dropped, compared or hashed yet.
    pub fn new() -> LifeCounts {
        LifeCounts {
            clones_left: Cell::new(u64::MAX),
            made: Cell::new(0),
            drops: Cell::new(0),
            matched: Cell::new(0),
            compared: Cell::new(0),
            hashed: Cell::new(0),
        }
    }

    /// Has the clone number `nth` from now on refused, from 1, and no other. At 0 none is refused.
    pub fn refuse(&self, nth: u64) {
        self.clones_left.set(nth);
    }

    /// How many clones there are until one is refused, that one included. It falls by one with each clone.
    pub fn clones_left(&self) -> u64 {
        self.clones_left.get()
    }

    /// How many items were dropped.
    pub fn drops(&self) -> u64 {
        self.drops.get()
    }

    /// How many items were made, clones too, and not dropped yet.
    pub fn living(&self) -> u64 {
        self.made.get().wrapping_sub(self.drops.get())
    }

    /// How often two items were compared by equality since the last time.
    pub fn matched(&self) -> u64 {
        self.matched.replace(0)
    }

    /// How often two items were compared by order since the last time.
    pub fn compared(&self) -> u64 {
        self.compared.replace(0)
    }

    /// How many hashers were made since the last time, by a maker that is counted here.
    pub fn hashed(&self) -> u64 {
        self.hashed.replace(0)
    }

    // Counts a clone, and answers whether it is the one to be refused.
    fn fails_now(&self) -> bool {
        let rest = self.clones_left.get().wrapping_sub(1);
        self.clones_left.set(rest);
        rest == 0
    }
}

fn count(counter: &Cell<u64>) {
    counter.set(counter.get().wrapping_add(1));
}

impl Drop for LifeCounts {
    fn drop(self) {
        let Self {
            clones_left: _,
            made: _,
            drops: _,
            matched: _,
            compared: _,
            hashed: _,
        } = self;
    }
}

/// A number whose clone may be refused, and that counts its drops and comparisons. It is compared, ordered and hashed
/// as that number.
#[derive_where(Debug)]
pub struct FailingItem<'a> {
    /// The number itself, all that the comparisons see.
    pub number: u64,
    #[derive_where(skip)]
    counts: &'a LifeCounts,
}

impl<'a> FailingItem<'a> {
    /// An item whose clones, drops and comparisons are counted here.
    pub fn new(number: u64, counts: &'a LifeCounts) -> FailingItem<'a>
        ensures number { result.number ≡ number }
        ensures counts { result.counts ≡ counts.entry }
    {
        count(&counts.made);
        FailingItem { number, counts }
    }

    // Counts a hasher that is made by what holds this item.
    pub(crate) fn count_hasher(&self) {
        count(&self.counts.hashed);
    }
}

impl Clone for FailingItem<'_> {
    ghost is_clone = { λ x y. y ≡ x };

    fn clone(&self) -> Result<Self, AllocError> {
        if self.counts.fails_now() {
            return Err(AllocError);
        }
        count(&self.counts.made);
        Ok(FailingItem {
            number: self.number,
            counts: self.counts,
        })
    }
}

impl Drop for FailingItem<'_> {
    fn drop(self) {
        count(&self.counts.drops);
        let Self {
            number: _,
            counts: _,
        } = self;
    }
}

impl PartialEq for FailingItem<'_> {
    ghost eq = { on (λ item. item.number) ◌==◌ };

    ghost laws = { Prim.search (comparing, rules) };

    fn eq(&self, other: &Self) -> bool {
        count(&self.counts.matched);
        self.number == other.number
    }
}

impl Eq for FailingItem<'_> {
    ghost laws = { Prim.search (comparing, rules) };
}

impl PartialOrd for FailingItem<'_> {
    ghost partial_cmp = { as_partial_cmp (on (λ item. item.number) nat_cmp) };

    ghost laws = { partial_order_from_own_ties (Prim.search (comparing, rules)) (Prim.search (comparing, rules)) };

    fn partial_cmp(&self, other: &Self) -> Option<Ordering> {
        Some(self.cmp(other))
    }
}

impl Ord for FailingItem<'_> {
    ghost cmp = { on (λ item. item.number) nat_cmp };

    ghost total = { Prim.search (comparing, rules) };

    ghost matches_partial_cmp = { Prim.search (comparing, rules) };

    ghost matches_eq = { Prim.search (comparing, rules) };

    fn cmp(&self, other: &Self) -> Ordering {
        count(&self.counts.compared);
        self.number.cmp(&other.number)
    }
}

impl Hash for FailingItem<'_> {
    ghost hash_input = { λ item. fed.u64 item.number };

    ghost respects_eq = { Prim.search (hashing, rules) };

    fn hash<H: Hasher>(&self, state: &mut H) {
        self.number.hash(state);
    }
}
