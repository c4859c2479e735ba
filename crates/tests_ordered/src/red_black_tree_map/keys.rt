//! Keys of tests.
ghost use Rattle.std.specs.Prelude.{◌==◌};
ghost use Rattle.std.proofs.Common.{rules};
ghost use Rattle.std.specs.Cmp.{partial_order_from_own_ties};
ghost use Rattle.std.specs.Cmp.Rules.{comparing};
ghost use Rattle.std.specs.Ordering.{nat_cmp, on, as_partial_cmp};

use std::cell::Cell;
use std::cmp::Ordering;

// A number that counts its comparisons by order.
#[derive(Clone, Copy)]
pub(crate) struct CountingKey<'a> {
    pub(crate) number: u64,
    pub(crate) compared: &'a Cell<u64>,
}

impl PartialEq for CountingKey<'_> {
    ghost eq = { on (λ k. k.number) ◌==◌ };

    ghost laws = { Prim.search (comparing, rules) };

    fn eq(&self, other: &Self) -> bool {
        self.number == other.number
    }
}

impl Eq for CountingKey<'_> {
    ghost laws = { Prim.search (comparing, rules) };
}

impl PartialOrd for CountingKey<'_> {
    ghost partial_cmp = { as_partial_cmp (on (λ k. k.number) nat_cmp) };

    ghost laws = { partial_order_from_own_ties (Prim.search (comparing, rules)) (Prim.search (comparing, rules)) };

    fn partial_cmp(&self, other: &Self) -> Option<Ordering> {
        Some(self.cmp(other))
    }
}

impl Ord for CountingKey<'_> {
    ghost cmp = { on (λ k. k.number) nat_cmp };

    ghost total = { Prim.search (comparing, rules) };

    ghost matches_partial_cmp = { Prim.search (comparing, rules) };

    ghost matches_eq = { Prim.search (comparing, rules) };

    fn cmp(&self, other: &Self) -> Ordering {
        self.compared.set(self.compared.get().wrapping_add(1));
        self.number.cmp(&other.number)
    }
}

// A number that is equal to all of its id, whatever its tag.
#[derive(Clone, Drop)]
#[derive_where(PartialEq, Eq, PartialOrd, Ord)]
pub(crate) struct Tagged {
    pub(crate) id: u64,
    #[derive_where(skip)]
    pub(crate) tag: char,
}
