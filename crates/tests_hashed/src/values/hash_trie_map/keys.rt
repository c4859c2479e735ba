//! Keys of tests.
ghost use Rattle.std.proofs.Common.{rules};
ghost use Rattle.std.specs.Cmp.Rules.{comparing, hashing};
ghost use Rattle.std.specs.Hash as fed;
ghost use Rattle.std.specs.Ordering.{on, eq_of_both};
ghost use Rattle.std.specs.Prelude.{nat_eq};

use std::cell::Cell;
use std::hash::{Hash, Hasher};

// A key that is equal to all of its id, whatever its tag.
#[derive(Clone, Drop)]
#[derive_where(PartialEq, Eq, Hash)]
pub(crate) struct Tagged {
    pub(crate) id: u64,
    #[derive_where(skip)]
    pub(crate) tag: char,
}

// A key that is equal to those of its hash and tag, and is hashed by its hash alone.
#[derive(Clone, Copy)]
#[derive_where(PartialEq, Eq, Hash)]
pub(crate) struct Colliding {
    pub(crate) hash: u64,
    #[derive_where(skip(Hash))]
    pub(crate) tag: u64,
}

// A key that is equal to those of its hash and tag, is hashed by its hash alone, and counts its comparisons.
#[derive(Clone, Copy)]
pub(crate) struct CountingKey<'a> {
    pub(crate) hash: u64,
    pub(crate) tag: u64,
    pub(crate) compared: &'a Cell<u64>,
}

impl PartialEq for CountingKey<'_> {
    ghost eq = { eq_of_both (on (λ k. k.hash) nat_eq) (on (λ k. k.tag) nat_eq) };

    ghost laws = { Prim.search (comparing, rules) };

    fn eq(&self, other: &Self) -> bool {
        self.compared.set(self.compared.get().wrapping_add(1));
        self.hash == other.hash && self.tag == other.tag
    }
}

impl Eq for CountingKey<'_> {
    ghost laws = { Prim.search (comparing, rules) };
}

impl Hash for CountingKey<'_> {
    ghost hash_input = { λ k. fed.u64 k.hash };

    ghost respects_eq = { Prim.search (hashing, rules) };

    fn hash<H: Hasher>(&self, state: &mut H) {
        state.write_u64(self.hash);
    }
}
