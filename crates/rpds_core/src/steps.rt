//! Counts of work that contracts see and that take no bytes.
ghost use Rattle.std.specs.Prelude.{◌≡◌, ℕ, ◌+◌};

use crate::key::{HashKey, OrdKey};
use std::cmp::Ordering;
use std::hash::Hash;
use std::marker::Model;

/// How much work was done, by kind. A contract can name the counts; a program can't read them, and they take neither
/// bytes nor time.
///
/// Each count is a whole number without a greatest value, and goes up by one at a time. A comparison and its count are
/// one call, [`compare`](Steps::compare) or [`equal`](Steps::equal), so neither can be had without the other. That the
/// other counts go up just where their work is done is read in the code: no proof ties them to the work.
#[derive(Drop)]
pub struct Steps {
    /// Comparisons of two keys by order, in a look-up, an insertion, a removal or a `get_mut` of an ordered container.
    pub ghost compared: { ℕ },
    /// Comparisons of two keys by equality, in a look-up of a hashed container.
    pub ghost matched: { ℕ },
    /// Nodes entered, in a look-up of a vector, of a hashed container, or by a position in a tree.
    pub ghost visited: { ℕ },
    /// Tree and trie nodes made, copied or made unique, and cells made by a counted push onto a list.
    pub ghost made: { ℕ },
    /// Items put by a counted reversal of a list.
    pub ghost moved: { ℕ },
}

impl Model for Steps {
    ghost use base.Fml.{ftrue};

    ghost also_owns = { λ _. ftrue };
}

impl Steps {
    ghost use Rattle.rpds_core.specs.declared.steps.Steps.{Steps};

    /// All counts at 0.
    pub fn new() -> Steps
        ensures compared { result.compared ≡ 0 }
        ensures matched { result.matched ≡ 0 }
        ensures visited { result.visited ≡ 0 }
        ensures made { result.made ≡ 0 }
        ensures moved { result.moved ≡ 0 }
    {
        Steps {}
    }

    // Any counts at all. Only the calls below, which add one to a count, call it.
    fn set(&mut self)
        ghost next: { Steps }
        ensures { self.new ≡ next }
    {}

    // Counts a comparison of two keys by order.
    fn raise_compared(&mut self)
        ensures { self.new ≡ record self.old { compared = self.old.compared + 1 } }
    {
        self.set()
    }

    // Counts a comparison of two keys by equality.
    fn raise_matched(&mut self)
        ensures { self.new ≡ record self.old { matched = self.old.matched + 1 } }
    {
        self.set()
    }

    /// Compares two keys by order, and counts the comparison.
    #[inline(always)]
    pub fn compare<K: Ord>(&mut self, a: &K, b: &K) -> Ordering
        ensures order { result ≡ K.cmp a.now b.now }
        ensures compared { self.new ≡ record self.old { compared = self.old.compared + 1 } }
    {
        self.raise_compared();
        a.cmp(b)
    }

    /// Compares a form of a key to a key by order, and counts the comparison.
    #[inline(always)]
    pub fn compare_form<K: Ord, Q: OrdKey<K>>(&mut self, form: Q, key: &K) -> Ordering
        ensures order { result ≡ Q.order (Q.seen form) key.now }
        ensures compared { self.new ≡ record self.old { compared = self.old.compared + 1 } }
    {
        self.raise_compared();
        form.order(key)
    }

    /// Compares a key by equality with a key's form, and counts the comparison.
    #[inline(always)]
    pub fn equal<K: Eq + Hash, Q: HashKey<K>>(&mut self, key: &K, form: Q) -> bool
        ensures equal { result ≡ Q.same key.now (Q.seen form) }
        ensures matched { self.new ≡ record self.old { matched = self.old.matched + 1 } }
    {
        self.raise_matched();
        form.is_form_of(key)
    }

    /// Counts a node that a look-up enters.
    pub fn raise_visited(&mut self)
        ensures { self.new ≡ record self.old { visited = self.old.visited + 1 } }
    {
        self.set()
    }

    /// Counts a node or a cell that is made or copied.
    pub fn raise_made(&mut self)
        ensures { self.new ≡ record self.old { made = self.old.made + 1 } }
    {
        self.set()
    }

    /// Counts an item that a reversal puts.
    pub fn raise_moved(&mut self)
        ensures { self.new ≡ record self.old { moved = self.old.moved + 1 } }
    {
        self.set()
    }
}
